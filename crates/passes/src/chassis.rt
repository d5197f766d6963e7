// Passes that move the chassis at each wheel, in the source's order, and the test of refusal 7.
ghost use Rattle.std.specs.Prelude.{◌≡◌, ◌<◌, ◌≤◌, length};
ghost use Rattle.std.specs.Float.{binary32};
ghost use Rattle.table.specs.Layout as at;
ghost use Rattle.wheel.specs.Ray.{answer_at};
ghost use Rattle.passes.specs.Passes.{stored, springs, no_directions, directions_in, directions_at, pushes, admits, admitted_at, demands_admitted};

use body::Chassis;
use ground::Answers;
use table::layout::{SIZE, WHEELS};
use tyre::WheelTuning;
use vector::{Normalized, Vector};
use wheel::{Directions, Wheel};

// Rule 6: the chassis after the springs of the first n wheels.
#[tactic(auto, using(crate::proofs::Laws::moving), unfolding(crate::specs::Passes::spring_at, crate::specs::Passes::springs))]
pub fn spring_pass(table: &[f32; SIZE], n: usize, dt: f32, chassis: Chassis) -> Chassis
    requires { n ≤ at.WHEELS }
    ensures { result ≡ springs binary32 stored dt n table.now chassis }
{
    let mut c = chassis;
    for i in 0..n {
        let w = table::rows::get_wheel(table, i);
        c = road::step::apply_suspension(w.settings.tuning, dt, w, c);
    }
    c
}

fn no_directions() -> Directions
    ensures { result ≡ no_directions }
{
    let none = Normalized {
        vector: vector::zero(),
        fellback: false,
    };
    Directions {
        axis: none,
        forward: none,
    }
}

// Rule 7: the directions of the first n wheels, worked out once for the passes that use them. Zeros past them.
#[tactic(auto, using(crate::proofs::Gives::giving), unfolding(crate::specs::Passes::given, crate::specs::Passes::each_gives, crate::specs::Passes::directions_in))]
pub fn directions_in(table: &[f32; SIZE], n: usize) -> [Directions; WHEELS]
    requires { n ≤ at.WHEELS }
    ensures { result ≡ directions_in binary32 n table.now }
{
    let none = no_directions();
    let mut all = [none; WHEELS];
    for i in 0..n {
        let w = table::rows::get_wheel(table, i);
        all[i] = road::contact::directions_of(w);
    }
    all
}

// Rule 9: the chassis after the friction impulses of the first n wheels, which have these directions.
#[tactic(auto, using(crate::proofs::Laws::moving), unfolding(crate::specs::Passes::push_at, crate::specs::Passes::pushes))]
pub fn push_pass(
    table: &[f32; SIZE],
    n: usize,
    up: Vector,
    directions: &[Directions; WHEELS],
    chassis: Chassis,
) -> Chassis
    requires { n ≤ at.WHEELS }
    ensures { result ≡ pushes binary32 up (directions_at directions.now) n table.now chassis }
{
    let mut c = chassis;
    for i in 0..n {
        let w = table::rows::get_wheel(table, i);
        let d = directions[i];
        c = road::step::apply_friction(up, d, w, c);
    }
    c
}

// Refusal 7: whether the demands and the limit of a grounded wheel may stand.
fn is_admitted(tuning: WheelTuning, dt: f32, w: Wheel) -> bool
    ensures { result ≡ admits binary32 tuning dt w }
{
    let limit = road::step::wheel_limit(tuning, dt, w);
    table::bounds::all_within(
        table::bounds::STORED,
        &[w.motion.forward, w.motion.side, limit],
    )
}

// The same of wheel i, if it is grounded.
#[tactic(auto, unfolding(crate::specs::Passes::admitted_at, ground::specs::Frame::grounded_at, lists::specs::Pick::pick))]
fn is_admitted_at(table: &[f32; SIZE], dt: f32, answers: Answers<'_>, i: usize) -> bool
    requires { i < length answers.list.now }
    ensures { result ≡ admitted_at binary32 stored dt (answer_at answers.entry.list.now) table.now i }
{
    if wheel::ray::is_grounded(answers.list[i]) {
        let w = table::rows::get_wheel(table, i);
        is_admitted(w.settings.tuning, dt, w)
    } else {
        true
    }
}

// The same of each wheel.
pub fn are_admitted(table: &[f32; SIZE], dt: f32, answers: Answers<'_>) -> bool
    ensures { result ≡ demands_admitted binary32 stored dt (answer_at answers.entry.list.now) (length answers.entry.list.now) table.now }
{
    (0..answers.list.len()).all(|i| is_admitted_at(table, dt, answers, i))
}
