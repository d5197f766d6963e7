// The numbers of a printed line: document 01, "Scenario program".
use grammar::layout::ANSWERS;

pub const SPACE: u8 = 32;

pub const LINE_FEED: u8 = 10;

// The characters of the digits 0 and a.
pub const ZERO: u8 = 48;

pub const LETTER_A: u8 = 97;

// A code or an answer, in decimal: 32 bits have at most ten digits.
pub const TEN: u32 = 10;

pub const TEN_DIGITS: usize = 10;

// A result: its bits, in hex, as many digits as 32 bits have.
pub const HEX: u32 = 16;

pub const HEX_DIGITS: usize = 8;

// The most results that a line has, those of an aim: the speed, and for each wheel its hard point and its ray.
pub const WHEEL_RESULTS: usize = 6;

pub const RESULTS: usize = 1 + (ANSWERS as usize) * WHEEL_RESULTS;

pub const LINE_BYTES: usize = TEN_DIGITS + 1 + TEN_DIGITS + RESULTS * (1 + HEX_DIGITS) + 1;
