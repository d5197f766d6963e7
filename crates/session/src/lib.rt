// Document 01, "Scenario program": the program over a window on the stream and a text. The bytes come in windows of any size, and the text goes out in blocks.
#![tactic(auto)]

pub mod layout; // the numbers of the program
pub mod start; // how it starts
pub mod runs; // the codes of a window
pub mod window; // the window on the stream, and a step over it

// How a run of codes stands: the program has ended; more bytes have to come; or the text has to be written out.
#[derive(Clone, Copy)]
pub enum Stands {
    Ended,
    More,
    Full,
}

// A run of codes: how many bytes are done with, and how it stands.
#[derive(Clone, Copy)]
pub struct Run {
    pub taken: usize,
    pub stands: Stands,
}
