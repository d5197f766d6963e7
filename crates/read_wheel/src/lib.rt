// Read a wheel.
#![tactic(auto)]

ghost use Rattle.std.specs.Prelude.{◌≡◌};
ghost use Rattle.std.specs.Float.{binary32};
ghost use Rattle.refusals.specs.After.{after};
ghost use Rattle.refusals.specs.Refused.{answered, replied};
ghost use Rattle.read_wheel.specs.Read.{refuse_read, not_read, read_reply, reading_of, all_list, read_wheel};

use refusals::{Refusal, shape};
use table::layout::*;
use vector::Vector;
use wheel::Wheel;

// What an accepted read answers: the fifteen numbers of a wheel, its settled centre, where the tyre is drawn, and whether rule 7's axis and
// forward direction fell back to zero in the drive. `centre` is rule 1's, with the length from before the cast.
#[derive(Clone, Copy)]
pub struct Reading {
    pub centre: Vector,
    pub direction: Vector,
    pub axle: Vector,
    pub length: f32,
    pub force: f32,
    pub forward: f32,
    pub side: f32,
    pub skid: f32,
    pub rotation: f32,
    pub settled: Vector,
    pub noaxis: bool,
    pub noforward: bool,
}

// How many numbers a read gives: document 01's; those with the settled centre; and all, the two answers among them.
pub const READING: usize = 15;

pub const SETTLED: usize = READING + 3;

pub const ALL: usize = SETTLED + 2;

fn refuse_read(table: &[f32], whole: &[u32], wheel: u32) -> Result<(), Refusal>
    ensures { answered result ≡ refuse_read table.now whole.now wheel }
{
    let (table, whole) = shape::vehicle(table, whole)?;
    let count = whole[COUNT];
    if wheel >= count {
        return Err(Refusal::NoSuchWheel);
    }
    if whole[MARK] != DRIVEN {
        return Err(Refusal::WrongMoment);
    }
    if !table::bounds::stored_within(table, count as usize) {
        return Err(Refusal::BadNumber);
    }
    Ok(())
}

#[tactic(auto, unfolding(crate::specs::Read::reading_of))]
fn reading_of(w: Wheel) -> Reading
    ensures { read_reply result ≡ reading_of binary32 w }
{
    let p = w.place;
    let m = w.motion;
    let centre = p.centre;
    let direction = p.direction;
    let axle = p.axle;
    let settled = wheel::ray::settled_centre(w);
    Reading {
        centre,
        direction,
        axle,
        length: w.info.length,
        force: m.force,
        forward: m.forward,
        side: m.side,
        skid: m.skid,
        rotation: m.rotation,
        settled,
        noaxis: real::reads_yes(w.fallbacks.axis),
        noforward: real::reads_yes(w.fallbacks.forward),
    }
}

// Reads one wheel after a drive. The settled centre is where the tyre is drawn. A wheel with no axis or no forward direction cannot push along it.
// Takes: the table and the whole numbers of a vehicle; the wheel's number. It changes nothing.
// Answers the wheel's centre, world direction, world axle, suspension length, force, forward and side impulse, skid,
// rotation, settled centre, and whether it had no axis and no forward direction; or refuses with the first that holds: 1, no
// vehicle's table; 4, no such wheel; 5, not driven since the last set-up, add or aim; 2, a stored number that is not finite or above 2^40 in
// magnitude.
pub fn read_wheel(table: &[f32], whole: &[u32], wheel: u32) -> Result<Reading, Refusal>
    ensures { after (replied read_reply not_read result) table.now whole.now ≡ read_wheel binary32 table.now whole.now wheel }
{
    refuse_read(table, whole, wheel)?;
    let rows: &[f32; SIZE] = table.try_into().unwrap();
    Ok(reading_of(table::rows::get_wheel(rows, wheel as usize)))
}

// The results of a read, in the order of docs/STREAM.md, the two answers last as numbers.
#[tactic(auto, unfolding(crate::specs::Read::all_list, crate::specs::Read::settled_list, crate::specs::Read::reading_list))]
pub fn all_numbers(r: Reading) -> [f32; ALL]
    ensures { result ≡ all_list (read_reply r) }
{
    [
        r.centre.x,
        r.centre.y,
        r.centre.z,
        r.direction.x,
        r.direction.y,
        r.direction.z,
        r.axle.x,
        r.axle.y,
        r.axle.z,
        r.length,
        r.force,
        r.forward,
        r.side,
        r.skid,
        r.rotation,
        r.settled.x,
        r.settled.y,
        r.settled.z,
        real::flag_number(r.noaxis),
        real::flag_number(r.noforward),
    ]
}
