// Set controls.
#![tactic(auto)]

ghost use Rattle.std.specs.Prelude.{◌≡◌};
ghost use Rattle.std.specs.Float.{binary32};
ghost use Rattle.refusals.specs.After.{after};
ghost use Rattle.refusals.specs.Refused.{answered};
ghost use Rattle.set_controls.specs.Controls.{refuse_controls, set_controls};

use refusals::{Refusal, handed, shape};
use table::layout::*;
use wheel::{Controls, KeptControls};

fn refuse_controls(table: &[f32], whole: &[u32], wheel: u32, c: Controls) -> Result<(), Refusal>
    ensures { answered result ≡ refuse_controls binary32 table.now whole.now wheel c }
{
    let (table, whole) = shape::vehicle(table, whole)?;
    let count = whole[COUNT];
    if wheel >= count {
        return Err(Refusal::NoSuchWheel);
    }
    if !handed::are_controls_handed(c) {
        return Err(Refusal::BadNumber);
    }
    if !table::bounds::stored_within(table, count as usize) {
        return Err(Refusal::BadNumber);
    }
    if !ranges::are_controls_in_range(c) {
        return Err(Refusal::OutOfRange);
    }
    Ok(())
}

// Sets the engine force, the brake and the steering of one wheel, which are kept until they are set again. The steering is a rotation in
// world space, or an angle, of which each aim makes a rotation about minus the wheel's world direction.
// An aimed mark becomes new: the vehicle must be aimed again before it is driven.
// Takes: the table and the whole numbers of a vehicle; the wheel's number; its controls: engine force, brake and steering.
// Refuses with the first that holds: 1, no vehicle's table; 4, no such wheel; 2, a number handed in that is not finite or above 2^20 in
// magnitude, or a stored one that is not finite or above 2^40; 10, a brake below 0, a rotation whose sum of squares is not from 1 - 2^-10
// to 1 + 2^-10, or an angle that is not from -2 to 2.
pub fn set_controls(
    table: &mut [f32],
    whole: &mut [u32],
    wheel: u32,
    c: Controls,
) -> Result<(), Refusal>
    ensures { after (answered result) table.new whole.new ≡ set_controls binary32 table.old whole.old wheel c }
{
    refuse_controls(table, whole, wheel, c)?;
    let rows = table.first_chunk_mut::<SIZE>().unwrap();
    table::rows::put(rows, wheel as usize, KeptControls::from(c));
    if whole[MARK] == AIMED {
        whole[MARK] = NEW;
    }
    Ok(())
}
