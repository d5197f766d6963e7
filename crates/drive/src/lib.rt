// Drive: the vehicle by one step, with what the host's rays met. The aim before it is in crate `aim`.
#![tactic(auto)]

use vector::Vector;

pub mod advance; // drive
pub mod results; // its results as numbers

// What an accepted drive answers: the chassis' new velocities, and whether it is to be woken.
#[derive(Clone, Copy)]
pub struct Driven {
    pub linvel: Vector,
    pub angvel: Vector,
    pub wake: bool,
}
