// The numbers of the scenario stream: document 01, "Scenario program", and the field order of docs/STREAM.md.
// How many bits a float has, and a whole number at most.
pub const FLOAT_BITS: u32 = 32;

pub const WHOLE_BITS: u32 = 32;

// The codes, and how many floats follow them.
pub const END: u32 = 0;

pub const ADD: u32 = 1;

pub const ADD_FLOATS: u32 = 18;

pub const ADD_ROLLED: u32 = 6;

pub const ADD_ROLLED_FLOATS: u32 = ADD_FLOATS + 1;

pub const CONTROLS: u32 = 2;

pub const CONTROLS_FLOATS: u32 = 6;

pub const CONTROLS_BY_ANGLE: u32 = 10;

pub const CONTROLS_BY_ANGLE_FLOATS: u32 = 3;

pub const AIM: u32 = 3;

pub const AIM_FLOATS: u32 = 26;

pub const DRIVE: u32 = 4;

pub const STEP_FLOATS: u32 = 1;

pub const READ: u32 = 5;

pub const READ_SETTLED: u32 = 8;

pub const READ_ALL: u32 = 9;

pub const READ_FLOATS: u32 = 0;

// The bodies of a drive: how many at most, the floats of each, and the most that its flag may be.
pub const BODIES: u32 = 64;

pub const BODY_FLOATS: u32 = 16;

pub const DYNAMIC: u32 = 1;

// The answers of a drive: how many at most, their kinds, and how many floats follow these.
pub const ANSWERS: u32 = 16;

pub const NOTHING: u32 = 0;

pub const HIT: u32 = 1;

pub const HIT_FLOATS: u32 = 4;

pub const HIT_UP: u32 = 2;

pub const HIT_UP_FLOATS: u32 = 7;

// The longest code: a drive of every body, and every answer with its upward normal.
pub const ANSWER_WORDS: u32 = 1 + HIT_UP_FLOATS + 1;

pub const ANSWERS_WORDS: u32 = 1 + ANSWERS * ANSWER_WORDS;

pub const BODIES_WORDS: u32 = 1 + BODIES * (BODY_FLOATS + 1) + ANSWERS_WORDS;

pub const CODE_WORDS: usize = (1 + STEP_FLOATS + BODIES_WORDS) as usize;
