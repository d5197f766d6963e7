// Add a wheel.
#![tactic(auto)]

ghost use Rattle.std.specs.Prelude.{◌≡◌};
ghost use Rattle.refusals.specs.After.{after};
ghost use Rattle.refusals.specs.Refused.{answered};
ghost use Rattle.add_wheel.specs.Add.{blank_wheel, new_wheel, refuse_add, add_wheel};

use refusals::{Refusal, handed, shape};
use table::layout::*;
use wheel::{Controls, Place, Settings, Steering, Wheel};

// A wheel whose numbers are all 0.
#[tactic(auto, unfolding(crate::specs::Add::blank_wheel))]
fn blank_wheel() -> Wheel
    ensures { result ≡ blank_wheel }
{
    table::parts::read_row(&[0.0; ROW])
}

// A wheel that has not moved yet: what was handed in, direction and axle also as the world ones, identity steering, 0 elsewhere.
fn new_wheel(s: Settings) -> Wheel
    ensures { result ≡ new_wheel s }
{
    let place = Place {
        centre: vector::zero(),
        direction: s.direction,
        axle: s.axle,
    };
    let straight = wheel::steer::identity();
    let controls = Controls {
        engine: 0.0,
        brake: 0.0,
        steering: Steering::ByRotation(straight),
    };
    Wheel {
        place,
        settings: s,
        controls: controls.into(),
        ..blank_wheel()
    }
}

fn refuse_add(table: &[f32], whole: &[u32], s: Settings) -> Result<(), Refusal>
    ensures { answered result ≡ refuse_add table.now whole.now s }
{
    let (table, whole) = shape::vehicle(table, whole)?;
    let count = whole[COUNT] as usize;
    if count >= WHEELS {
        return Err(Refusal::Full);
    }
    if !handed::are_settings_handed(s) {
        return Err(Refusal::BadNumber);
    }
    if !table::bounds::stored_within(table, count) {
        return Err(Refusal::BadNumber);
    }
    if !ranges::are_settings_in_range(s) {
        return Err(Refusal::OutOfRange);
    }
    Ok(())
}

// Adds a wheel, whose number is the count so far. The mark becomes new: the vehicle must be aimed and driven before a wheel is read.
// Takes: the table and the whole numbers of a vehicle; the wheel's settings: connection point, direction and axle relative to the chassis,
// rest length, radius, tuning and roll influence.
// Refuses with the first that holds: 1, no vehicle's table; 3, 16 wheels already; 2, a number handed in that is not finite or above 2^20 in
// magnitude, or a stored one that is not finite or above 2^40; 10, a radius not above 0, another setting from the rest length on below 0,
// or a roll influence above 1.
pub fn add_wheel(table: &mut [f32], whole: &mut [u32], s: Settings) -> Result<(), Refusal>
    ensures { after (answered result) table.new whole.new ≡ add_wheel table.old whole.old s }
{
    refuse_add(table, whole, s)?;
    let rows = table.first_chunk_mut::<SIZE>().unwrap();
    let count = whole[COUNT];
    table::rows::put(rows, count as usize, new_wheel(s));
    whole[COUNT] = count + 1;
    whole[MARK] = NEW;
    Ok(())
}
