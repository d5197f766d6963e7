// A scenario code as words: its fields as the arguments of the calls, and results as words. The lists of a drive are in crate `frame_words`.
#![tactic(auto)]

pub mod layout; // where each field stands
pub mod bits; // a float as its bit pattern
pub mod decode; // the fields of add, controls, aim and read
pub mod results; // results as words
