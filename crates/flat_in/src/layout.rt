// The flat lists of a drive that a host hands in: each place is counted from the one before it. A ground body is laid out as in crate `table`.
// What a wheel's ray met.
pub const TIME: usize = 0;

pub const NORMAL: usize = TIME + 1;

pub const UPWARD: usize = NORMAL + 3;

pub const RAY: usize = UPWARD + 3;

// The kinds of a ray answer that met something, the last of which is the highest, and the flag of a dynamic ground body.
pub const HIT: u32 = 1;

pub const HIT_UP: u32 = 2;

pub const DYNAMIC: u32 = 1;
