// One f32 at a time: the square root (`root::root`), the inverse, Rust's clamp, bounds, and a yes or no as a number.
#![tactic(auto)]

pub mod root;

ghost use Rattle.std.specs.Prelude.{◌≡◌};
ghost use Rattle.std.specs.Float.{binary32};
ghost use Rattle.real.specs.Scalar.{inverse_of, usable, raised_of, lowered_of, clamp_of, not_below_zero, within, flag_number, reads_yes};

// inv(a): 0 for 0, else 1 / a.
#[tactic(auto, unfolding(crate::specs::Scalar::inverse_of))]
pub fn inverse(a: f32) -> f32
    ensures { result ≡ inverse_of binary32 a }
{
    if a == 0.0 { 0.0 } else { 1.0 / a }
}

// Whether r is finite and above 0.
#[tactic(auto, using(crate::proofs::Literals::zero_is, crate::proofs::Literals::infinity_is), unfolding(crate::specs::Scalar::usable))]
pub fn is_usable(r: f32) -> bool
    ensures { result ≡ usable r }
{
    r > 0.0 && r < f32::INFINITY
}

#[tactic(auto, unfolding(crate::specs::Scalar::raised_of))]
fn raised_of(lo: f32, x: f32) -> f32
    ensures { result ≡ raised_of lo x }
{
    if x < lo { lo } else { x }
}

#[tactic(auto, unfolding(crate::specs::Scalar::lowered_of))]
fn lowered_of(hi: f32, x: f32) -> f32
    ensures { result ≡ lowered_of hi x }
{
    if x > hi { hi } else { x }
}

// Rust's `x.clamp(lo, hi)` with no panic: x raised to lo, and then lowered to hi, which decides where lo is above it. A NaN stays.
#[tactic(auto, unfolding(crate::specs::Scalar::clamp_of))]
pub fn clamp(x: f32, lo: f32, hi: f32) -> f32
    ensures { result ≡ clamp_of x lo hi }
{
    lowered_of(hi, raised_of(lo, x))
}

// Not below 0; a NaN gives 0.
#[tactic(auto, unfolding(crate::specs::Scalar::not_below_zero))]
pub fn not_below_zero(x: f32) -> f32
    ensures { result ≡ not_below_zero x }
{
    if x > 0.0 { x } else { 0.0 }
}

// Whether x is at most `most` in magnitude: a NaN and the infinities are not.
#[tactic(auto, unfolding(crate::specs::Scalar::within))]
pub fn is_within(most: f32, x: f32) -> bool
    ensures { result ≡ within most x }
{
    x <= most && -most <= x
}

// Yes as 1, no as 0.
#[tactic(auto, using(crate::proofs::Literals::flag_is), unfolding(crate::specs::Scalar::flag_number))]
pub fn flag_number(flag: bool) -> f32
    ensures { result ≡ flag_number flag }
{
    f32::from(flag)
}

// Whether a stored number is a yes: any but 0, of either sign.
#[tactic(auto, unfolding(crate::specs::Scalar::reads_yes))]
pub fn reads_yes(x: f32) -> bool
    ensures { result ≡ reads_yes x }
{
    x != 0.0
}
