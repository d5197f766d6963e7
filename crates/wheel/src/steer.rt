// A steering as it is kept, and the rotation that it makes: change request 2026-11.
ghost use Rattle.std.specs.Prelude.{◌≡◌};
ghost use Rattle.std.specs.Float.{binary32};
ghost use Rattle.wheel.specs.Steering.{identity, kept_steering, steering_of, kept_controls, controls_of, steering_axis, rotation_from_angle, steering_rotation};

use super::{Controls, KeptControls, KeptSteering, Steering};
use vector::{Normalized, Rotation, Vector};

// The rotation that turns nothing.
#[tactic(auto, unfolding(crate::specs::Steering::identity))]
pub fn identity() -> Rotation
    ensures { result ≡ identity }
{
    let zero = vector::zero();
    Rotation { b: zero, w: 1.0 }
}

// The one writer of the row's steering: the last control given, the other of the two as in a new row.
impl From<Steering> for KeptSteering {
    ghost from_gives = { λ s k. k ≡ kept_steering s };

    #[tactic(auto, unfolding(crate::specs::Steering::kept_steering))]
    fn from(s: Steering) -> KeptSteering {
        match s {
            Steering::ByRotation(rotation) => KeptSteering {
                rotation,
                angle: 0.0,
                kind: 0.0,
            },
            Steering::ByAngle(angle) => KeptSteering {
                rotation: identity(),
                angle,
                kind: 1.0,
            },
        }
    }
}

// The one reader of the row's steering.
impl From<KeptSteering> for Steering {
    ghost from_gives = { λ k s. s ≡ steering_of k };

    #[tactic(auto, unfolding(crate::specs::Steering::steering_of))]
    fn from(k: KeptSteering) -> Steering {
        if real::reads_yes(k.kind) {
            Steering::ByAngle(k.angle)
        } else {
            Steering::ByRotation(k.rotation)
        }
    }
}

// The controls as the row is to keep them.
impl From<Controls> for KeptControls {
    ghost from_gives = { λ c k. k ≡ kept_controls c };

    #[tactic(auto, unfolding(crate::specs::Steering::kept_controls))]
    fn from(c: Controls) -> KeptControls {
        KeptControls {
            engine: c.engine,
            brake: c.brake,
            steering: KeptSteering::from(c.steering),
        }
    }
}

// The controls that a row keeps.
impl From<KeptControls> for Controls {
    ghost from_gives = { λ k c. c ≡ controls_of k };

    #[tactic(auto, unfolding(crate::specs::Steering::controls_of))]
    fn from(k: KeptControls) -> Controls {
        Controls {
            engine: k.engine,
            brake: k.brake,
            steering: Steering::from(k.steering),
        }
    }
}

// What an angle turns about: minus the wheel's world direction, made unit length, and whether that fell back to zero.
#[tactic(auto, unfolding(crate::specs::Steering::steering_axis))]
pub fn steering_axis(direction: Vector) -> Normalized
    ensures { result ≡ steering_axis binary32 direction }
{
    vector::normalize_or_zero(vector::neg(direction))
}

// The source's rotation_from_angle, about an axis that is made unit length.
#[tactic(auto, unfolding(crate::specs::Steering::rotation_from_angle, angle::specs::Angle::sine_cosine_of))]
pub fn rotation_from_angle(axis: Vector, angle: f32) -> Rotation
    ensures { result ≡ rotation_from_angle binary32 axis angle }
{
    let turn = angle::sine_cosine(angle::half_of(angle));
    let b = vector::scale(axis, turn.sine);
    Rotation { b, w: turn.cosine }
}

// The rotation of a steering, for a wheel with this world direction.
#[tactic(auto, unfolding(crate::specs::Steering::steering_rotation))]
pub fn steering_rotation(direction: Vector, s: Steering) -> Rotation
    ensures { result ≡ steering_rotation binary32 direction s }
{
    match s {
        Steering::ByRotation(q) => q,
        Steering::ByAngle(angle) => {
            let axis = steering_axis(direction);
            rotation_from_angle(axis.vector, angle)
        }
    }
}
