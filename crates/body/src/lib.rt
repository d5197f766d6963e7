// Rigid bodies by value: the chassis and the ground bodies, with the inverse inertia kept flat.
#![tactic(auto)]

ghost use Rattle.std.specs.Prelude.{◌≡◌};
ghost use Rattle.std.specs.Float.{binary32};
ghost use Rattle.body.specs.Body.{velocity_at_point, apply_impulse_at_point, impulse_denominator};

use vector::{Inertia, Pose, Vector};

// What both kinds of body have.
#[derive(Clone, Copy)]
pub struct Body {
    pub centre: Vector,
    pub linvel: Vector,
    pub angvel: Vector,
    pub invmass: f32,
    pub inertia: Inertia,
}

// The chassis: a body with its pose and three effective inverse masses. It is dynamic.
#[derive(Clone, Copy)]
pub struct Chassis {
    pub pose: Pose,
    pub body: Body,
    pub effective: Vector,
}

// A body under a wheel.
#[derive(Clone, Copy)]
pub struct GroundBody {
    pub body: Body,
    pub dynamic: bool,
}

#[tactic(auto, unfolding(crate::specs::Body::velocity_at_point))]
pub fn velocity_at_point(b: Body, p: Vector) -> Vector
    ensures { result ≡ velocity_at_point binary32 b p }
{
    vector::add(b.linvel, vector::cross(b.angvel, vector::sub(p, b.centre)))
}

// The chassis after an impulse at the point p.
#[tactic(auto, unfolding(crate::specs::Body::apply_impulse_at_point))]
pub fn apply_impulse_at_point(c: Chassis, impulse: Vector, p: Vector) -> Chassis
    ensures { result ≡ apply_impulse_at_point binary32 c impulse p }
{
    let b = c.body;
    let linvel = vector::add(b.linvel, vector::parts(impulse, c.effective));
    let arm = vector::sub(p, b.centre);
    let turn = vector::inertia_dot(b.inertia, vector::cross(arm, impulse));
    let angvel = vector::add(b.angvel, turn);
    Chassis {
        body: Body {
            linvel,
            angvel,
            ..b
        },
        ..c
    }
}

#[tactic(auto, unfolding(crate::specs::Body::impulse_denominator))]
pub fn impulse_denominator(b: Body, p: Vector, n: Vector) -> f32
    ensures { result ≡ impulse_denominator binary32 b p n }
{
    let d = vector::sub(p, b.centre);
    let turned = vector::inertia_dot(b.inertia, vector::cross(d, n));
    b.invmass + vector::dot(n, vector::cross(turned, d))
}
