// Passes that change each wheel's row, in the source's order, but for the rescale of rule 8, which is crate `slides`. The first function of a pair changes one wheel, the second is the pass.
ghost use Rattle.std.specs.Prelude.{◌≡◌, ◌<◌, ◌≤◌, length};
ghost use Rattle.std.specs.Float.{binary32};
ghost use Rattle.table.specs.Layout as at;
ghost use Rattle.table.specs.Rows.{wheel_at, put_wheel};
ghost use Rattle.wheel.specs.Ray.{answer_at, ray_cast};
ghost use Rattle.road.specs.Step.{suspended_of, update_rotation};
ghost use Rattle.ground.specs.Frame.{frame_of};
ghost use Rattle.passes.specs.Passes.{stored, changed, transform_at, transforms, casts, suspensions, directions_at, demand_of, demands, spins};

use body::Body;
use ground::{Answers, Listed};
use table::layout::{SIZE, WHEELS};
use table::parts::{Force, Spinning};
use vector::Pose;
use wheel::{Directions, RayAnswer};

// Rule 1.
#[tactic(auto, unfolding(crate::specs::Passes::changed, crate::specs::Passes::transform_at))]
fn transform_wheel(table: &mut [f32; SIZE], i: usize, pose: Pose)
    requires { i < at.WHEELS }
    ensures { table.new ≡ changed (transform_at binary32 pose) i table.old }
{
    let w = table::rows::get_wheel(table, i);
    table::rows::put(table, i, wheel::ray::update_wheel_transform(pose, w));
}

#[tactic(auto, using(crate::proofs::Laws::passing), unfolding(crate::specs::Passes::transforms))]
pub fn transform_pass(table: &mut [f32; SIZE], n: usize, pose: Pose)
    requires { n ≤ at.WHEELS }
    ensures { table.new ≡ transforms binary32 pose n table.old }
{
    for i in 0..n {
        transform_wheel(table, i, pose);
    }
}

// Rules 3 to 5, with the wheel's answer. The tuning that counts in a step is the stored one, here and below.
#[tactic(auto, using(crate::proofs::OneWheel::cast_parts))]
fn cast_wheel(table: &mut [f32; SIZE], i: usize, chassis: Body, answer: RayAnswer)
    requires { i < at.WHEELS }
    ensures { table.new ≡ put_wheel table.old i (ray_cast binary32 (wheel_at table.old i).settings.tuning chassis answer (wheel_at table.old i)) }
{
    let w = table::rows::get_wheel(table, i);
    let r = wheel::ray::ray_cast(w.settings.tuning, chassis, answer, w);
    table::rows::put(table, i, (r.info, r.approach));
}

#[tactic(auto, using(crate::proofs::Laws::passing), unfolding(crate::specs::Passes::casts, crate::specs::Passes::changed, crate::specs::Passes::cast_at))]
pub fn cast_pass(table: &mut [f32; SIZE], chassis: Body, answers: Answers<'_>)
    ensures { table.new ≡ casts binary32 stored chassis (answer_at answers.entry.list.now) (length answers.entry.list.now) table.old }
{
    for (i, a) in answers.list.iter().enumerate() {
        cast_wheel(table, i, chassis, *a);
    }
}

// Rule 6, the force.
#[tactic(auto, unfolding(road::specs::Step::suspended_of))]
fn suspend_wheel(table: &mut [f32; SIZE], i: usize, invmass: f32, contact: bool)
    requires { i < at.WHEELS }
    ensures { table.new ≡ put_wheel table.old i (suspended_of binary32 (wheel_at table.old i).settings.tuning invmass contact (wheel_at table.old i)) }
{
    let w = table::rows::get_wheel(table, i);
    let force = road::step::wheel_force(w.settings.tuning, invmass, contact, w);
    table::rows::put(table, i, Force(force));
}

#[tactic(auto, using(crate::proofs::Laws::passing), unfolding(crate::specs::Passes::suspensions, crate::specs::Passes::changed, crate::specs::Passes::suspend_at, ground::specs::Frame::grounded_at))]
pub fn suspension_pass(table: &mut [f32; SIZE], invmass: f32, answers: Answers<'_>)
    ensures { table.new ≡ suspensions binary32 stored invmass (answer_at answers.entry.list.now) (length answers.entry.list.now) table.old }
{
    for (i, a) in answers.list.iter().enumerate() {
        suspend_wheel(table, i, invmass, wheel::ray::is_grounded(*a));
    }
}

// Rule 7, and rule 8 before the rescale, of wheel i with its directions. `grounded` is the number of grounded wheels.
#[tactic(auto, using(crate::proofs::OneWheel::demand_put))]
fn demand_wheel(
    table: &mut [f32; SIZE],
    on: Listed<'_>,
    i: usize,
    chassis: Body,
    grounded: u8,
    d: Directions,
)
    requires { i < length on.frame.answers.now }
    ensures { table.new ≡ put_wheel table.old i (demand_of binary32 stored on.entry.frame.dt chassis on.entry.frame.bodies.now on.entry.frame.dynamic.now (answer_at on.entry.frame.answers.now i) grounded d (wheel_at table.old i)) }
{
    let w = table::rows::get_wheel(table, i);
    let f = on.frame;
    let contact = wheel::ray::is_grounded(f.answers[i]);
    let ground = on.ground_under(i);
    let friction = road::step::friction_of(
        w.settings.tuning,
        f.dt,
        chassis,
        contact,
        ground,
        grounded,
        d,
        w,
    );
    let fallbacks = road::contact::fallbacks_of(contact, d);
    table::rows::put(table, i, (friction, fallbacks));
}

#[tactic(auto, using(crate::proofs::Laws::passing), unfolding(crate::specs::Passes::demands, crate::specs::Passes::changed, crate::specs::Passes::demand_at))]
pub fn demand_pass(
    table: &mut [f32; SIZE],
    on: Listed<'_>,
    chassis: Body,
    grounded: u8,
    directions: &[Directions; WHEELS],
)
    ensures { table.new ≡ demands binary32 stored (frame_of on.entry.frame) chassis grounded (directions_at directions.now) (length on.entry.frame.answers.now) table.old }
{
    for i in 0..on.frame.answers.len() {
        demand_wheel(table, on, i, chassis, grounded, directions[i]);
    }
}

// Rule 10.
#[tactic(auto, unfolding(road::specs::Step::update_rotation, road::specs::Step::spun_by))]
fn spin_wheel(table: &mut [f32; SIZE], i: usize, dt: f32, contact: bool, chassis: Body)
    requires { i < at.WHEELS }
    ensures { table.new ≡ put_wheel table.old i (update_rotation binary32 dt contact chassis (wheel_at table.old i)) }
{
    let w = table::rows::get_wheel(table, i);
    let r = road::step::update_rotation(dt, contact, chassis, w);
    let turned = Spinning {
        rotation: r.motion.rotation,
        spin: r.motion.spin,
    };
    table::rows::put(table, i, turned);
}

#[tactic(auto, using(crate::proofs::Laws::passing), unfolding(crate::specs::Passes::spins, crate::specs::Passes::changed, crate::specs::Passes::spin_at, ground::specs::Frame::grounded_at))]
pub fn spin_pass(table: &mut [f32; SIZE], dt: f32, chassis: Body, answers: Answers<'_>)
    ensures { table.new ≡ spins binary32 dt chassis (answer_at answers.entry.list.now) (length answers.entry.list.now) table.old }
{
    for (i, a) in answers.list.iter().enumerate() {
        spin_wheel(table, i, dt, wheel::ray::is_grounded(*a), chassis);
    }
}
