// Refusal 10: the ranges of settings.
#![tactic(auto)]

ghost use Rattle.std.specs.Prelude.{◌≡◌, ◌*◌, ◌<◌, ◌≤◌, length};
ghost use Rattle.std.specs.Float.{binary32};
ghost use Rattle.table.specs.Layout as at;
ghost use Rattle.lists.specs.All.{all};
ghost use Rattle.ranges.specs.Ranges.{in_range, in_unit, not_negative, settings_in_range, sum_of_squares, in_band, rotation_in_range, steering_in_range, controls_in_range, chassis_in_range, bodies_in_range, wheel_in_range};

use body::Chassis;
use table::layout::SIZE;
use vector::Rotation;
use wheel::{Controls, Settings, Steering};

// 1 - 2^-10 and 1 + 2^-10, of a rotation's sum of squares and of a normal's.
const BAND_LOW: f32 = 0.9990234375;

const BAND_HIGH: f32 = 1.0009765625;

// Of a steering angle, either way.
const MOST_ANGLE: f32 = 2.0;

// 2^-20 and 2^20, of the chassis' inverse mass.
const LEAST_INVMASS: f32 = 0.00000095367431640625;

const MOST_INVMASS: f32 = 1048576.0;

#[tactic(auto, unfolding(crate::specs::Ranges::in_range, lists::specs::Pick::pick))]
fn is_in_range(low: f32, high: f32, x: f32) -> bool
    ensures { result ≡ in_range low high x }
{
    low <= x && x <= high
}

// Whether x is from 0 to 1: a time step, the time of a hit, or a roll influence.
#[tactic(auto, unfolding(crate::specs::Ranges::in_unit))]
pub fn is_in_unit(x: f32) -> bool
    ensures { result ≡ in_unit x }
{
    is_in_range(0.0, 1.0, x)
}

#[tactic(auto, unfolding(crate::specs::Ranges::not_negative))]
fn is_not_negative(x: f32) -> bool
    ensures { result ≡ not_negative x }
{
    0.0 <= x
}

// Whether each number of s is at least 0.
fn are_not_negative(s: &[f32]) -> bool
    ensures { result ≡ all not_negative s.now }
{
    s.iter().all(|x| is_not_negative(*x))
}

#[tactic(auto, unfolding(crate::specs::Ranges::settings_in_range, lists::specs::Pick::pick))]
pub fn are_settings_in_range(s: Settings) -> bool
    ensures { result ≡ settings_in_range s }
{
    let numbers = [
        s.rest,
        s.tuning.travel,
        s.tuning.slip,
        s.tuning.stiffness,
        s.tuning.compression,
        s.tuning.damping,
        s.tuning.sideways,
        s.tuning.most,
    ];
    0.0 < s.radius && are_not_negative(&numbers) && is_in_unit(s.roll)
}

// The sum of squares, x, y, z, w in order.
#[tactic(auto, unfolding(crate::specs::Ranges::sum_of_squares))]
fn sum_of_squares(q: Rotation) -> f32
    ensures { result ≡ sum_of_squares binary32 q }
{
    let b = q.b;
    ((b.x * b.x + b.y * b.y) + b.z * b.z) + q.w * q.w
}

// Whether a rotation, or a normal, may have this sum of squares.
pub fn is_in_band(x: f32) -> bool
    ensures { result ≡ in_band x }
{
    is_in_range(BAND_LOW, BAND_HIGH, x)
}

#[tactic(auto, unfolding(crate::specs::Ranges::rotation_in_range))]
pub fn is_rotation_in_range(q: Rotation) -> bool
    ensures { result ≡ rotation_in_range binary32 q }
{
    is_in_band(sum_of_squares(q))
}

// Whether a steering's rotation, or its angle, is in its range.
#[tactic(auto, unfolding(crate::specs::Ranges::steering_in_range))]
fn is_steering_in_range(s: Steering) -> bool
    ensures { result ≡ steering_in_range binary32 s }
{
    match s {
        Steering::ByRotation(q) => is_rotation_in_range(q),
        Steering::ByAngle(angle) => is_in_range(-MOST_ANGLE, MOST_ANGLE, angle),
    }
}

#[tactic(auto, unfolding(crate::specs::Ranges::controls_in_range, lists::specs::Pick::pick))]
pub fn are_controls_in_range(c: Controls) -> bool
    ensures { result ≡ controls_in_range binary32 c }
{
    is_not_negative(c.brake) && is_steering_in_range(c.steering)
}

pub fn is_chassis_in_range(c: Chassis) -> bool
    ensures { result ≡ chassis_in_range binary32 c }
{
    is_in_range(LEAST_INVMASS, MOST_INVMASS, c.body.invmass)
        && is_rotation_in_range(c.pose.rotation)
}

// Whether each of the n ground bodies of a lent list has an inverse mass of at least 0.
pub fn are_bodies_in_range(bodies: &[f32], n: usize) -> bool
    requires { (n ≤ at.BODIES) × (length bodies.now ≡ n * at.BODY) }
    ensures { result ≡ bodies_in_range bodies.now n }
{
    (0..n).all(|i| is_not_negative(table::rows::get_body(bodies, i).invmass))
}

// Whether each stored setting of wheel i is in its range.
#[tactic(auto, unfolding(crate::specs::Ranges::wheel_in_range, lists::specs::Pick::pick))]
pub fn is_wheel_in_range(table: &[f32; SIZE], i: usize) -> bool
    requires { i < at.WHEELS }
    ensures { result ≡ wheel_in_range binary32 table.now i }
{
    let w = table::rows::get_wheel(table, i);
    are_settings_in_range(w.settings) && are_controls_in_range(Controls::from(w.controls))
}
