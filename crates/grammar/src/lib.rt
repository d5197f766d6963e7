// What may follow the words of a code that are read so far: the field order of docs/STREAM.md.
#![tactic(auto)]

pub mod layout; // the numbers of the format
pub mod fields; // what may follow

// What a code asks for.
#[derive(Clone, Copy)]
pub enum Asked {
    End,
    Add,
    Controls,
    Aim,
    Drive,
    Read,
    AddRolled,
    ReadSettled,
    ReadAll,
    ControlsByAngle,
    Unknown,
}

// The kind of an answer.
#[derive(Clone, Copy)]
pub enum Kind {
    Nothing,
    Hit,
    HitUp,
}

// A number that stands for no kind.
#[derive(Clone, Copy)]
pub struct UnknownKind(pub u32);

// A whole number: the code; a wheel's number, after which so many floats end the code; the number of bodies; a body's flag; the number of
// answers; an answer's kind; the number of the body that a hit names. After the body or the answer come so many more.
// `End` and `Bad` are no words: the code is whole, or no code goes on so.
#[derive(Clone, Copy)]
pub enum Mark {
    Code,
    Wheel(u32),
    Bodies,
    Flag(u32),
    Answers,
    Kind(u32),
    Named(u32),
    End,
    Bad,
}

// A place in a code: so many floats, then the mark's whole number.
#[derive(Clone, Copy)]
pub struct Place {
    pub floats: u32,
    pub mark: Mark,
}

// More words are to follow, the code is whole, or no code begins so.
#[derive(Clone, Copy)]
pub enum Verdict {
    More,
    Whole,
    Bad,
}
