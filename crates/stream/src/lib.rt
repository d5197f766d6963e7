// The scenario stream: codes as lists of numbers. One number is in crate `numbers`, what may follow it in crate `grammar`.
#![tactic(auto)]

pub mod codes; // one code

// What stands at the start of some bytes: a whole code, of so many words and bytes; too few bytes; or a malformed place.
// The last two say which code they stand in, 0 where the code itself is not read.
#[derive(Clone, Copy)]
pub enum Code {
    Whole(usize, usize),
    Short(u32),
    Malformed(u32),
}
