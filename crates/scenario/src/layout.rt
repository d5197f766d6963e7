// Where each field of a scenario code stands among its words: the field order of docs/STREAM.md. Word 0 is the code, and each place is counted from the one before it. How many floats a field has, and how many fields there are at most, the stream's layout says.
use grammar::layout as code;

// The first field: an add has the settings from there on, an aim the chassis, in the order in which the table keeps them.
pub const FIRST: usize = 1;

// The wheel's number, which a read has alone, and behind it the controls.
pub const WHEEL: usize = FIRST;

pub const CONTROLS: usize = WHEEL + 1;

// A drive: the step, the number of bodies, and the bodies, each a lent body's numbers and its flag.
pub const STEP: usize = FIRST;

pub const BODY_COUNT: usize = STEP + 1;

pub const BODIES: usize = BODY_COUNT + 1;

pub const FLAG: usize = code::BODY_FLOATS as usize;

pub const BODY_WORDS: usize = FLAG + 1;

// An answer: its kind, and where its fields stand from there. The body's number comes last, and the next answer after it.
pub const TIME: usize = 1;

pub const NORMAL: usize = TIME + 1;

pub const HIT_BODY: usize = NORMAL + 3;

pub const HIT_WORDS: usize = 1 + code::HIT_FLOATS as usize + 1;

pub const UPWARD: usize = NORMAL + 3;

pub const HIT_UP_BODY: usize = UPWARD + 3;

pub const HIT_UP_WORDS: usize = 1 + code::HIT_UP_FLOATS as usize + 1;
