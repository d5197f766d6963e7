// Sine and cosine of half a steering angle, on plain numbers: change request 2026-11. In whole numbers of grains of 2^-30, and then rounded to an f32.
#![tactic(auto)]

ghost use Rattle.std.specs.Prelude.{◌≡◌, ◌≤◌, if◌then◌else◌};
ghost use Rattle.std.specs.Float.{binary32};
ghost use Rattle.std.specs.Float.Ieee.{neg, lt};
ghost use Rattle.real.specs.Number.{zero, ratio};
ghost use Rattle.angle.specs.Angle as of;
ghost use Rattle.angle.specs.Angle.{half_of, grains_of, square_of, bracket, cosine_grains, sine_grains, sine_cosine_of};

#[derive(Clone, Copy)]
pub struct SineCosine {
    pub sine: f32,
    pub cosine: f32,
}

// How many grains make 1.
const GRAINS: u64 = 0x4000_0000;

const GRAINS_AS_FLOAT: f32 = 1073741824.0;

// A grain.
const GRAIN: f32 = 0.000000000931322574615478515625;

// Half of a steering angle.
#[tactic(auto, using(real::proofs::Literals::half_is), unfolding(crate::specs::Angle::half_of))]
pub fn half_of(angle: f32) -> f32
    ensures { result ≡ half_of binary32 angle }
{
    angle * 0.5
}

// h without its sign.
fn size_of(h: f32) -> f32
    ensures { result ≡ (if lt h zero then neg h else h) }
{
    if h < 0.0 { -h } else { h }
}

// The size of h in grains, cut to a whole number: the product is exact, since GRAINS is a power of two. Of a number beyond 1 it is 0.
fn grains_of(h: f32) -> u64
    ensures { (result ≡ grains_of binary32 h) × (result ≤ of.GRAINS) }
{
    if real::is_within(1.0, h) {
        std::num::truncating_f32_to_u64(size_of(h) * GRAINS_AS_FLOAT)
    } else {
        0
    }
}

// The square of n grains, in grains.
#[tactic(auto, unfolding(crate::specs::Angle::square_of))]
fn square_of(n: u64) -> u64
    requires { n ≤ of.GRAINS }
    ensures { (result ≡ square_of n) × (result ≤ of.GRAINS) }
{
    n * n / GRAINS
}

// 1 − (q/d) × t, in grains.
#[tactic(auto, unfolding(crate::specs::Angle::bracket))]
fn bracket(q: u64, d: u64, t: u64) -> u64
    requires { (q ≤ of.GRAINS) × (1 ≤ d) × (d ≤ 132) × (t ≤ of.GRAINS) }
    ensures { (result ≡ bracket q d t) × (result ≤ of.GRAINS) }
{
    GRAINS - q * t / (GRAINS * d)
}

#[tactic(auto, unfolding(crate::specs::Angle::cosine_grains))]
fn cosine_grains(q: u64) -> u64
    requires { q ≤ of.GRAINS }
    ensures { (result ≡ cosine_grains q) × (result ≤ of.GRAINS) }
{
    let twelfth = bracket(q, 11 * 12, GRAINS);
    let tenth = bracket(q, 9 * 10, twelfth);
    let eighth = bracket(q, 7 * 8, tenth);
    let sixth = bracket(q, 5 * 6, eighth);
    let fourth = bracket(q, 3 * 4, sixth);
    bracket(q, 1 * 2, fourth)
}

// Of the sine, less its factor h.
#[tactic(auto, unfolding(crate::specs::Angle::sine_grains))]
fn sine_grains(q: u64) -> u64
    requires { q ≤ of.GRAINS }
    ensures { (result ≡ sine_grains q) × (result ≤ of.GRAINS) }
{
    let tenth = bracket(q, 10 * 11, GRAINS);
    let eighth = bracket(q, 8 * 9, tenth);
    let sixth = bracket(q, 6 * 7, eighth);
    let fourth = bracket(q, 4 * 5, sixth);
    bracket(q, 2 * 3, fourth)
}

// t grains, rounded once: the product is exact, since a grain is a power of two.
fn fraction_of(t: u64) -> f32
    requires { t ≤ of.GRAINS }
    ensures { result ≡ ratio binary32 t of.GRAINS }
{
    std::num::nearest_u32_to_f32(t as u32) * GRAIN
}

// The sine and the cosine of h, which is half of a steering angle.
#[tactic(auto, unfolding(crate::specs::Angle::sine_of, crate::specs::Angle::cosine_of, crate::specs::Angle::sine_cosine_of))]
pub fn sine_cosine(h: f32) -> SineCosine
    ensures { result ≡ sine_cosine_of binary32 h }
{
    let q = square_of(grains_of(h));
    SineCosine {
        sine: h * fraction_of(sine_grains(q)),
        cosine: fraction_of(cosine_grains(q)),
    }
}
