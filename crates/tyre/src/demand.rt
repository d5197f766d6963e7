// What one grounded tyre asks of the ground, on plain numbers: document 01, rule 7.
ghost use Rattle.std.specs.Prelude.{◌≡◌};
ghost use Rattle.std.specs.Float.{binary32};
ghost use Rattle.tyre.specs.Demand.{side_response, rolling_response, rolling_of};

use super::grip;

// The side demand at a speed along the axis: the last lines of the source's resolve_single_bilateral and resolve_single_unilateral, times the
// side stiffness.
#[tactic(auto, using(real::proofs::Literals::fifth_is), unfolding(crate::specs::Demand::side_response))]
pub fn side_response(speed: f32, sum: f32, stiffness: f32) -> f32
    ensures { result ≡ side_response binary32 speed sum stiffness }
{
    -0.2 * speed * real::inverse(sum) * stiffness
}

// The rolling demand of an unpowered wheel at a speed along its rolling direction, before the brake cuts it: the source's calc_rolling_friction
// without its clamp.
#[tactic(auto, unfolding(crate::specs::Demand::rolling_response))]
pub fn rolling_response(speed: f32, sum: f32, grounded: u8) -> f32
    ensures { result ≡ rolling_response binary32 speed sum grounded }
{
    -speed * (1.0 / sum) / (grounded as f32)
}

// The rolling demand, from the uncut one.
#[tactic(auto, unfolding(crate::specs::Demand::rolling_of))]
pub fn rolling_of(dt: f32, engine: f32, brake: f32, uncut: f32) -> f32
    ensures { result ≡ rolling_of binary32 dt engine brake uncut }
{
    if engine != 0.0 {
        engine * dt
    } else {
        grip::braked_of(brake, uncut)
    }
}
