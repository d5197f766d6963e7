// One wheel, on values, and its ray: document 01's rules 1 and 3 to 5 for a single wheel; those of a wheel on the ground are in crate `road`. A row of the lent
// table is read into a `Wheel`, and written from one.
#![tactic(auto)]

use tyre::{Approach, WheelTuning};
use vector::{Normalized, Rotation, Vector};

pub mod ray; // rules 1 and 3 to 5: where the wheel is, and what its ray met
pub mod steer; // change request 2026-11: a steering as it is kept, and the rotation that it makes

// What was handed in when the wheel was added, in the order of docs/STREAM.md. `roll` is the source's roll_influence.
#[derive(Clone, Copy)]
pub struct Settings {
    pub connection: Vector,
    pub direction: Vector,
    pub axle: Vector,
    pub rest: f32,
    pub radius: f32,
    pub tuning: WheelTuning,
    pub roll: f32,
}

// The roll influence that the source gives every wheel.
pub const ROLL_INFLUENCE: f32 = 0.1;

// How a wheel is steered: by a rotation in world space, or by an angle from -2 to 2, in radians, about minus its world direction (change
// request 2026-11).
#[derive(Clone, Copy)]
pub enum Steering {
    ByRotation(Rotation),
    ByAngle(f32),
}

// What is set before a frame.
#[derive(Clone, Copy)]
pub struct Controls {
    pub engine: f32,
    pub brake: f32,
    pub steering: Steering,
}

// A steering as the row keeps it: a kind of 0 says that the rotation was given last, any other number that the angle was.
#[derive(Clone, Copy)]
pub struct KeptSteering {
    pub rotation: Rotation,
    pub angle: f32,
    pub kind: f32,
}

// The controls as the row keeps them.
#[derive(Clone, Copy)]
pub struct KeptControls {
    pub engine: f32,
    pub brake: f32,
    pub steering: KeptSteering,
}

// The source's `RayCastInfo`, less contact and ground object, which are not kept.
#[derive(Clone, Copy)]
pub struct RayCastInfo {
    pub normal: Vector,
    pub point: Vector,
    pub length: f32,
    pub hard: Vector,
}

// Where the wheel is: its centre, and the world's direction and axle.
#[derive(Clone, Copy)]
pub struct Place {
    pub centre: Vector,
    pub direction: Vector,
    pub axle: Vector,
}

// The spin is the source's delta_rotation.
#[derive(Clone, Copy)]
pub struct Motion {
    pub rotation: f32,
    pub spin: f32,
    pub force: f32,
    pub forward: f32,
    pub side: f32,
    pub skid: f32,
}

// Change request 2026-05: whether rule 7's axis and forward direction fell back to zero in the drive, as the row keeps it: 1 or 0. Any
// number but 0 is a yes.
#[derive(Clone, Copy)]
pub struct Fallbacks {
    pub axis: f32,
    pub forward: f32,
}

#[derive(Clone, Copy)]
pub struct Wheel {
    pub info: RayCastInfo,
    pub place: Place,
    pub settings: Settings,
    pub controls: KeptControls,
    pub approach: Approach,
    pub motion: Motion,
    pub fallbacks: Fallbacks,
}

// What a wheel's ray met: nothing; a hit with its time, its normal and the ground body's number; a hit that also has the normal of the
// upward cast. The number 0 names no body, n names body n - 1 of the drive's list.
#[derive(Clone, Copy)]
pub enum RayAnswer {
    Nothing,
    Hit(f32, Vector, u32),
    HitUp(f32, Vector, Vector, u32),
}

// A wheel's axis on the contact plane, and its rolling direction there, each with whether it fell back to zero.
#[derive(Clone, Copy)]
pub struct Directions {
    pub axis: Normalized,
    pub forward: Normalized,
}
