// The tests of a drive that come before its step: refusals 1, 5, 6, 2, 12 and 10.
#![tactic(auto)]

ghost use Rattle.std.specs.Prelude.{◌≡◌, length, IfOk};
ghost use Rattle.std.specs.Float.{binary32};
ghost use Rattle.lists.specs.Refusal.{first_failed};
ghost use Rattle.wheel.specs.Ray.{answer_at};
ghost use Rattle.ground.specs.Frame.{frame_of};
ghost use Rattle.refusals.specs.Refused.{answered};
ghost use Rattle.early.specs.Early.{early_tests, frame_tests, number_tests, range_tests, early_number};

use ground::{Frame, Listed};
use refusals::{Refusal, answers, shape, wheels};
use table::bounds::HANDED;
use table::layout::*;

// Refusals 1, 5 and 6.
#[tactic(auto, using(lists::proofs::Picks::pick_no, lists::proofs::Picks::not_yes, lists::proofs::Picks::not_no, refusals::proofs::Lent::lent_shape, refusals::proofs::Lent::no_vehicle), unfolding(crate::specs::Early::frame_tests, lists::specs::Refusal::first_failed))]
fn refuse_frame(table: &[f32], whole: &[u32], f: Frame<'_>) -> Result<(), Refusal>
    ensures { answered result ≡ first_failed (frame_tests table.now whole.now f.entry.bodies.now f.entry.dynamic.now (answer_at f.entry.answers.now) (length f.entry.answers.now)) }
{
    let (_, whole) = shape::vehicle(table, whole)?;
    if whole[MARK] != AIMED {
        return Err(Refusal::WrongMoment);
    }
    if f.answers.len() != whole[COUNT] as usize {
        return Err(Refusal::BadLists);
    }
    let count = f.dynamic.len();
    if count > BODIES {
        return Err(Refusal::BadLists);
    }
    if f.bodies.len() != count * BODY {
        return Err(Refusal::BadLists);
    }
    if !answers::are_answers_ok(count as u32, f.answers) {
        return Err(Refusal::BadLists);
    }
    Ok(())
}

// Refusals 2 and 12.
#[tactic(auto, using(lists::proofs::Picks::not_yes, lists::proofs::Picks::not_no), unfolding(crate::specs::Early::number_tests, lists::specs::Refusal::first_failed))]
fn refuse_numbers(table: &[f32; SIZE], on: Listed<'_>) -> Result<(), Refusal>
    ensures { answered result ≡ first_failed (number_tests binary32 table.now on.entry.frame.dt on.entry.frame.bodies.now (answer_at on.entry.frame.answers.now) (length on.entry.frame.answers.now)) }
{
    let f = on.frame;
    if !real::is_within(HANDED, f.dt) {
        return Err(Refusal::BadNumber);
    }
    if !table::bounds::all_within(HANDED, f.bodies) {
        return Err(Refusal::BadNumber);
    }
    if !answers::are_all_normals_handed(f.answers) {
        return Err(Refusal::BadNumber);
    }
    if !table::bounds::stored_within(table, f.answers.len()) {
        return Err(Refusal::BadNumber);
    }
    if !answers::are_all_normals_ok(f.answers) {
        return Err(Refusal::BadNormal);
    }
    Ok(())
}

// Refusal 10.
#[tactic(auto, using(lists::proofs::Picks::not_yes, lists::proofs::Picks::not_no), unfolding(crate::specs::Early::range_tests, lists::specs::Refusal::first_failed))]
fn refuse_ranges(table: &[f32; SIZE], on: Listed<'_>) -> Result<(), Refusal>
    ensures { answered result ≡ first_failed (range_tests binary32 table.now on.entry.frame.dt on.entry.frame.bodies.now (length on.entry.frame.dynamic.now) (length on.entry.frame.answers.now)) }
{
    let f = on.frame;
    if !ranges::is_in_unit(f.dt) {
        return Err(Refusal::OutOfRange);
    }
    if !ranges::are_bodies_in_range(f.bodies, f.dynamic.len()) {
        return Err(Refusal::OutOfRange);
    }
    if !wheels::are_wheels_in_range(table, f.answers.len()) {
        return Err(Refusal::OutOfRange);
    }
    if !ranges::is_chassis_in_range(table::rows::get_chassis(table)) {
        return Err(Refusal::OutOfRange);
    }
    Ok(())
}

// Refusals 1, 5, 6, 2, 12 and 10, in this order; what passes them all is what a drive goes on with.
pub fn refuse_early<'a>(
    table: &[f32],
    whole: &[u32],
    frame: Frame<'a>,
) -> Result<Listed<'a>, Refusal>
    ensures number { early_number result ≡ first_failed (early_tests binary32 table.now whole.now (frame_of frame.entry) (length frame.entry.answers.now)) }
    ensures same { IfOk result (λ on. on.frame ≡ frame.entry) }
{
    refuse_frame(table, whole, frame)?;
    let rows: &[f32; SIZE] = table.try_into().unwrap();
    let on = Listed { frame };
    refuse_numbers(rows, on)?;
    refuse_ranges(rows, on)?;
    Ok(on)
}
