// The places of a code, one after another.
ghost use Rattle.std.specs.Prelude.{◌≡◌};
ghost use Rattle.grammar.specs.Layout as layout;
ghost use Rattle.grammar.specs.Kinds.{Decodes};
ghost use Rattle.grammar.specs.Grammar as grammar;

use super::layout::*;
use super::{Asked, Kind, Mark, Place, UnknownKind, Verdict};

// So many floats, then the mark's whole number.
fn then(floats: u32, mark: Mark) -> Place
    ensures { result ≡ grammar.◌then◌ floats mark }
{
    Place { floats, mark }
}

// Whether the word at a place is a float.
#[tactic(auto, unfolding(crate::specs::Grammar::is_float))]
fn is_float(place: Place) -> bool
    ensures { result ≡ grammar.is_float place }
{
    place.floats > 0
}

// How many bits the word at a place has at most.
#[tactic(auto, unfolding(crate::specs::Grammar::width_at, lists::specs::Pick::pick))]
pub fn width_at(place: Place) -> u32
    ensures { result ≡ grammar.width_at layout.WIDTHS place }
{
    if is_float(place) {
        FLOAT_BITS
    } else {
        WHOLE_BITS
    }
}

// The place of the code itself.
pub fn start() -> Place
    ensures { result ≡ grammar.start }
{
    then(0, Mark::Code)
}

// What a code asks for.
impl From<u32> for Asked {
    ghost from_gives = { λ code r. r ≡ grammar.asked code };

    #[tactic(auto, unfolding(crate::specs::Grammar::asked, lists::specs::Pick::pick))]
    fn from(code: u32) -> Asked {
        match code {
            END => Asked::End,
            ADD => Asked::Add,
            CONTROLS => Asked::Controls,
            AIM => Asked::Aim,
            DRIVE => Asked::Drive,
            READ => Asked::Read,
            ADD_ROLLED => Asked::AddRolled,
            READ_SETTLED => Asked::ReadSettled,
            READ_ALL => Asked::ReadAll,
            CONTROLS_BY_ANGLE => Asked::ControlsByAngle,
            _ => Asked::Unknown,
        }
    }
}

// After a code.
#[tactic(auto, unfolding(crate::specs::Grammar::after_asked))]
fn after_asked(asked: Asked) -> Place
    ensures { result ≡ grammar.after_asked asked }
{
    match asked {
        Asked::End => then(0, Mark::End),
        Asked::Add => then(ADD_FLOATS, Mark::End),
        Asked::Controls => then(0, Mark::Wheel(CONTROLS_FLOATS)),
        Asked::Aim => then(AIM_FLOATS, Mark::End),
        Asked::Drive => then(STEP_FLOATS, Mark::Bodies),
        Asked::Read => then(0, Mark::Wheel(READ_FLOATS)),
        Asked::AddRolled => then(ADD_ROLLED_FLOATS, Mark::End),
        Asked::ReadSettled => then(0, Mark::Wheel(READ_FLOATS)),
        Asked::ReadAll => then(0, Mark::Wheel(READ_FLOATS)),
        Asked::ControlsByAngle => then(0, Mark::Wheel(CONTROLS_BY_ANGLE_FLOATS)),
        Asked::Unknown => then(0, Mark::Bad),
    }
}

// n more bodies, then the answers.
#[tactic(auto, unfolding(crate::specs::Grammar::bodies, lists::specs::Pick::pick))]
fn bodies(n: u32) -> Place
    ensures { result ≡ grammar.bodies n }
{
    if n == 0 {
        then(0, Mark::Answers)
    } else {
        then(BODY_FLOATS, Mark::Flag(n - 1))
    }
}

// n more answers, then the end.
#[tactic(auto, unfolding(crate::specs::Grammar::answers, lists::specs::Pick::pick))]
fn answers(n: u32) -> Mark
    ensures { result ≡ grammar.answers n }
{
    if n == 0 { Mark::End } else { Mark::Kind(n - 1) }
}

// The kind of an answer that a number stands for.
impl TryFrom<u32> for Kind {
    type Error = UnknownKind;

    ghost try_from_gives = { Decodes };

    fn try_from(number: u32) -> Result<Kind, UnknownKind> {
        match number {
            NOTHING => Ok(Kind::Nothing),
            HIT => Ok(Kind::Hit),
            HIT_UP => Ok(Kind::HitUp),
            _ => Err(UnknownKind(number)),
        }
    }
}

// After the kind of an answer that n more follow.
#[tactic(auto, unfolding(crate::specs::Grammar::after_kind, lists::specs::Pick::pick))]
fn after_kind(kind: u32, n: u32) -> Place
    ensures { result ≡ grammar.after_kind kind n }
{
    match Kind::try_from(kind) {
        Ok(Kind::Nothing) => then(0, answers(n)),
        Ok(Kind::Hit) => then(HIT_FLOATS, Mark::Named(n)),
        Ok(Kind::HitUp) => then(HIT_UP_FLOATS, Mark::Named(n)),
        Err(_) => then(0, Mark::Bad),
    }
}

// A word over its limit is bad.
#[tactic(auto, unfolding(crate::specs::Grammar::limited, lists::specs::Pick::pick))]
fn limited(most: u32, word: u32, place: Place) -> Place
    ensures { result ≡ grammar.limited most word place }
{
    if word <= most {
        place
    } else {
        then(0, Mark::Bad)
    }
}

// After a word at a mark.
#[tactic(auto, unfolding(crate::specs::Grammar::follow))]
fn follow(mark: Mark, word: u32) -> Place
    ensures { result ≡ grammar.follow mark word }
{
    match mark {
        Mark::Code => after_asked(Asked::from(word)),
        Mark::Wheel(k) => then(k, Mark::End),
        Mark::Bodies => limited(BODIES, word, bodies(word)),
        Mark::Flag(n) => limited(DYNAMIC, word, bodies(n)),
        Mark::Answers => limited(ANSWERS, word, then(0, answers(word))),
        Mark::Kind(n) => after_kind(word, n),
        Mark::Named(n) => then(0, answers(n)),
        Mark::End => then(0, Mark::Bad),
        Mark::Bad => then(0, Mark::Bad),
    }
}

// After a word at any place.
#[tactic(auto, unfolding(crate::specs::Grammar::next, crate::specs::Grammar::is_float, lists::specs::Pick::pick))]
pub fn next(place: Place, word: u32) -> Place
    ensures { result ≡ grammar.next place word }
{
    let mark = place.mark;
    if is_float(place) {
        then(place.floats - 1, mark)
    } else {
        follow(mark, word)
    }
}

// Whether words are to follow, the code is whole, or no code begins so.
#[tactic(auto, unfolding(crate::specs::Grammar::verdict, crate::specs::Grammar::verdict_at, lists::specs::Pick::pick))]
pub fn verdict(place: Place) -> Verdict
    ensures { result ≡ grammar.verdict place }
{
    let mark = place.mark;
    if is_float(place) {
        return Verdict::More;
    }
    match mark {
        Mark::End => Verdict::Whole,
        Mark::Bad => Verdict::Bad,
        _ => Verdict::More,
    }
}
