// The flat lists that a call writes: each place is counted from the one before it. The results of a read are laid out as in crate `read_wheel`.
use aim::SIGHT;
use drive::results::VELOCITIES;
use table::layout::WHEELS;

// The results of an aim: the signed speed, and a sight for each wheel, its hard point and its ray.
pub const SPEED: usize = 0;

pub const SIGHTS: usize = SPEED + 1;

pub const AIM: usize = SIGHTS + WHEELS * SIGHT;

// The results of a drive.
pub const WAKE: usize = VELOCITIES;

pub const DRIVE: usize = WAKE + 1;
