// The passes of a drive, one after another, on a table that is worked on: document 01, "A step, in the source's order".
#![tactic(auto)]

ghost use Rattle.std.specs.Prelude.{◌≡◌, length};
ghost use Rattle.std.specs.Float.{binary32};
ghost use Rattle.wheel.specs.Ray.{answer_at};
ghost use Rattle.ground.specs.Frame.{frame_of};
ghost use Rattle.passes.specs.Passes.{stored};
ghost use Rattle.passes.specs.Step.{work, pushed, spun, demand_step};

use body::Chassis;
use ground::{Answers, Listed};
use table::layout::{SIZE, WHEELS};
use wheel::Directions;

// What a step has as far as the demands: the chassis after the springs, and the directions of each wheel.
#[derive(Clone, Copy)]
pub struct Demanded {
    pub chassis: Chassis,
    pub directions: [Directions; WHEELS],
}

// The step as far as the demands of all wheels: rules 3 to 7, and rule 8 before the rescale. Answers the chassis after the springs, and the
// directions of the wheels, which the rest of the step uses too.
#[tactic(auto, unfolding(passes::specs::Step::demand_step, passes::specs::Step::demanded, passes::specs::Step::sprung))]
pub fn demand_step(table: &mut [f32; SIZE], on: Listed<'_>) -> Demanded
    ensures { work table.new result.chassis result.directions ≡ demand_step binary32 stored (frame_of on.entry.frame) (length on.entry.frame.answers.now) table.old }
{
    let n = on.frame.answers.len();
    let kept = table::rows::get_chassis(table);
    let b = kept.body;
    let answers = Answers {
        list: on.frame.answers,
    };
    passes::rows::cast_pass(table, b, answers);
    passes::rows::suspension_pass(table, b.invmass, answers);
    let c = passes::chassis::spring_pass(table, n, on.frame.dt, kept);
    let grounded = on.grounded_wheels();
    let directions = passes::chassis::directions_in(table, n);
    passes::rows::demand_pass(table, on, c.body, grounded, &directions);
    Demanded {
        chassis: c,
        directions,
    }
}

// The rest of the step: the rescale of rule 8, rules 9 and 10, and the chassis stored. Answers the chassis.
#[tactic(auto, unfolding(passes::specs::Step::spun, passes::specs::Step::pushed))]
pub fn finish_step(
    table: &mut [f32; SIZE],
    up: u32,
    dt: f32,
    answers: Answers<'_>,
    d: Demanded,
) -> Chassis
    ensures { work table.new result d.directions ≡ spun binary32 dt (answer_at answers.entry.list.now) (length answers.entry.list.now) (pushed binary32 up (length answers.entry.list.now) (work table.old d.chassis d.directions)) }
{
    let n = answers.list.len();
    slides::rescale_pass(table, n);
    let c = d.chassis;
    let p = c.pose;
    let axis = vector::rotate(p.rotation, vector::ith(up));
    let after = passes::chassis::push_pass(table, n, axis, &d.directions, c);
    passes::rows::spin_pass(table, dt, after.body, answers);
    table::rows::put_chassis(table, after);
    after
}
