// Drive: the vehicle by one step.
ghost use Rattle.std.specs.Prelude.{◌≡◌, ◌≤◌, length};
ghost use Rattle.std.specs.Float.{binary32};
ghost use Rattle.table.specs.Layout as at;
ghost use Rattle.ground.specs.Frame.{frame_of};
ghost use Rattle.passes.specs.Passes.{stored};
ghost use Rattle.refusals.specs.After.{after};
ghost use Rattle.refusals.specs.Refused.{replied};
ghost use Rattle.drive.specs.Drive.{wakes, drive_reply, not_driven, drive_of};
ghost use Rattle.drive.specs.Tried.{tried, try_step};

use super::Driven;
use ground::{Answers, Frame, Listed};
use refusals::Refusal;
use table::layout::*;

// Whether any engine force of the first n wheels is above 0.
fn wakes(table: &[f32; SIZE], n: usize) -> bool
    requires { n ≤ at.WHEELS }
    ensures { result ≡ wakes table.now n }
{
    for i in 0..n {
        let w = table::rows::get_wheel(table, i);
        if w.controls.engine > 0.0 {
            return true;
        }
    }
    false
}

// The step, on the table itself. A step that is refused, with 7 or 8, gives the table its numbers back.
fn try_step(table: &mut [f32; SIZE], up: u32, on: Listed<'_>) -> Result<Driven, Refusal>
    ensures { tried (replied drive_reply not_driven result) table.new ≡ try_step binary32 stored table.old up (frame_of on.entry.frame) (length on.entry.frame.answers.now) }
{
    let n = on.frame.answers.len();
    let dt = on.frame.dt;
    let answers = Answers {
        list: on.frame.answers,
    };
    let kept = *table;
    let d = update::demand_step(table, on);
    if !passes::chassis::are_admitted(table, dt, answers) {
        *table = kept;
        return Err(Refusal::WildGrip);
    }
    let after = update::finish_step(table, up, dt, answers, d);
    if !table::bounds::stored_within(table, n) {
        *table = kept;
        return Err(Refusal::WildStep);
    }
    Ok(Driven {
        linvel: after.body.linvel,
        angvel: after.body.angvel,
        wake: wakes(&kept, n),
    })
}

// Drives the vehicle by one step on the chassis that the aim kept, and stores everything or nothing. The mark becomes driven.
// Takes: the table and the whole numbers of an aimed vehicle; the frame: the time step; the ground bodies, 16 numbers each (centre of mass,
// linear and angular velocity, inverse mass, six of inverse inertia), with a flag for each that says if it is dynamic; the ray answers, one
// for each wheel.
// Answers the chassis' new velocities and whether it is to be woken; or refuses with the first that holds:
// 1, no vehicle's table; 5, not aimed; 6, not one answer for each wheel, over 64 bodies or numbers that do not fit them, a time that is NaN
// or not from 0 to 1, or a body that is not in the list; 2, a number handed in that is not finite or above 2^20 in magnitude, or a stored
// one that is not finite or above 2^40; 12, a hit's normal or upward normal whose sum of squares is not from 1 - 2^-10 to 1 + 2^-10, save
// the zero normal of a hit at time 0; 10, a time step not from 0 to 1, a body whose inverse mass is below 0, or a stored setting or kept
// chassis out of its range; 7, a demand or grip limit of a grounded wheel that is NaN or above 2^40 in magnitude; 8, a new number that
// could not be stored.
#[tactic(auto, using(crate::proofs::Accepted::tested_shape))]
pub fn drive(table: &mut [f32], whole: &mut [u32], frame: Frame<'_>) -> Result<Driven, Refusal>
    ensures { after (replied drive_reply not_driven result) table.new whole.new ≡ drive_of binary32 table.old whole.old (frame_of frame.entry) (length frame.entry.answers.now) }
{
    let on = early::refuse_early(table, whole, frame)?;
    let rows = table.first_chunk_mut::<SIZE>().unwrap();
    let driven = try_step(rows, whole[UP], on)?;
    whole[MARK] = DRIVEN;
    Ok(driven)
}
