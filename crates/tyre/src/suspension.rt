// The suspension of one wheel on plain numbers: document 01, rules 4 and 6.
ghost use Rattle.std.specs.Prelude.{◌≡◌};
ghost use Rattle.std.specs.Float.{binary32};
ghost use Rattle.tyre.specs.Suspension.{suspension_length, approach_of, damping_of, suspension_force, cut_of};

use super::{Approach, WheelTuning};

// Rule 4: the suspension's length after a hit at `time`.
#[tactic(auto, unfolding(crate::specs::Suspension::suspension_length))]
pub fn suspension_length(rest: f32, travel: f32, radius: f32, time: f32) -> f32
    ensures { result ≡ suspension_length binary32 rest travel radius time }
{
    real::clamp(
        time * (rest + radius) - radius,
        rest - travel,
        rest + travel,
    )
}

// Rule 4: the clipped inverse and the relative velocity, from normal dot direction and normal dot contact velocity.
#[tactic(auto, using(real::proofs::Literals::tenth_is, real::proofs::Literals::zero_is, real::proofs::Literals::one_is), unfolding(crate::specs::Suspension::approach_of))]
pub fn approach_of(facing: f32, speed: f32) -> Approach
    ensures { result ≡ approach_of binary32 facing speed }
{
    if facing >= -0.1 {
        Approach {
            velocity: 0.0,
            inverse: 1.0 / 0.1,
        }
    } else {
        let inverse = -1.0 / facing;
        Approach {
            velocity: speed * inverse,
            inverse,
        }
    }
}

// Rule 6: the damping that counts at a relative velocity.
#[tactic(auto, unfolding(crate::specs::Suspension::damping_of))]
fn damping_of(tuning: WheelTuning, velocity: f32) -> f32
    ensures { result ≡ damping_of tuning velocity }
{
    if velocity < 0.0 {
        tuning.compression
    } else {
        tuning.damping
    }
}

// Rule 6: the suspension's force in contact, before it is cut.
#[tactic(auto, unfolding(crate::specs::Suspension::suspension_force))]
pub fn suspension_force(
    tuning: WheelTuning,
    rest: f32,
    length: f32,
    approach: Approach,
    invmass: f32,
) -> f32
    ensures { result ≡ suspension_force binary32 tuning rest length approach invmass }
{
    let spring = tuning.stiffness * (rest - length) * approach.inverse;
    let damped = damping_of(tuning, approach.velocity) * approach.velocity;
    real::not_below_zero((spring - damped) * real::inverse(invmass))
}

// Rule 6: the force cut to the maximum, for the impulse alone.
#[tactic(auto, unfolding(crate::specs::Suspension::cut_of))]
pub fn cut_of(force: f32, most: f32) -> f32
    ensures { result ≡ cut_of force most }
{
    if force > most { most } else { force }
}
