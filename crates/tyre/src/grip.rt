// What the ground gives one tyre, on plain numbers: document 01, rule 8, with the brake's clamp and the grip limit.
ghost use Rattle.std.specs.Prelude.{◌≡◌};
ghost use Rattle.std.specs.Float.{binary32};
ghost use Rattle.tyre.specs.Grip.{load_of, skid_of, with_skid, airborne, braked_of, limit_of};

use super::Friction;

// The left side of the slide test.
#[tactic(auto, using(real::proofs::Literals::half_is), unfolding(crate::specs::Grip::load_of))]
fn load_of(forward: f32, side: f32) -> f32
    ensures { result ≡ load_of binary32 forward side }
{
    let x = forward * 0.5;
    x * x + side * side
}

// The skid: how much of the demand the limit allows, 1 where the tyre does not slide.
#[tactic(auto, unfolding(crate::specs::Grip::skid_of, crate::specs::Grip::slides))]
fn skid_of(forward: f32, side: f32, limit: f32) -> f32
    ensures { result ≡ skid_of binary32 forward side limit }
{
    let squared = load_of(forward, side);
    if squared > limit * limit {
        limit * real::inverse(real::root::root(squared))
    } else {
        1.0
    }
}

// A demand with the skid that the limit gives it.
#[tactic(auto, unfolding(crate::specs::Grip::with_skid))]
pub fn with_skid(forward: f32, side: f32, limit: f32) -> Friction
    ensures { result ≡ with_skid binary32 forward side limit }
{
    Friction {
        forward,
        side,
        skid: skid_of(forward, side, limit),
    }
}

// What a wheel in the air has of them.
pub fn airborne() -> Friction
    ensures { result ≡ airborne }
{
    Friction {
        forward: 0.0,
        side: 0.0,
        skid: 1.0,
    }
}

// The brake's clamp: no more than the brake, either way.
#[tactic(auto, unfolding(crate::specs::Grip::braked_of))]
pub fn braked_of(brake: f32, x: f32) -> f32
    ensures { result ≡ braked_of brake x }
{
    real::clamp(x, -brake, brake)
}

// The grip limit, from the uncut force.
#[tactic(auto, unfolding(crate::specs::Grip::limit_of))]
pub fn limit_of(force: f32, dt: f32, slip: f32) -> f32
    ensures { result ≡ limit_of binary32 force dt slip }
{
    force * dt * slip
}
