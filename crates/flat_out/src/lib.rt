// The results of a call, written over a lent list where the call is accepted.
#![tactic(auto)]

ghost use Rattle.std.specs.Prelude.{◌≡◌, ◌+◌, ◌*◌, ◌<◌, length};
ghost use Rattle.lists.specs.Part.{paste};
ghost use Rattle.table.specs.Layout as lent;
ghost use Rattle.read_wheel.specs.Read.{ALL, read_reply, all_list};
ghost use Rattle.drive.specs.Drive.{drive_reply};
ghost use Rattle.flat_out.specs.Layout as at;
ghost use Rattle.flat_out.specs.Ends.{over};
ghost use Rattle.aim.specs.Sights.{SIGHT, sight_list, sights_list, aimed_list};
ghost use Rattle.flat_out.specs.Results.{driven_list};

use aim::{Aimed, SIGHT, Sight};
use drive::Driven;
use layout::{SIGHTS, SPEED};
use read_wheel::Reading;
use refusals::Refusal;
use table::layout::WHEELS;

pub mod layout; // where each number stands

// The results of a read, all of them.
pub fn put_reading(results: &mut [f32], answer: Result<Reading, Refusal>)
    requires { length results.old ≡ ALL }
    ensures { results.new ≡ over results.old (λ r. all_list (read_reply r)) answer }
{
    if let Ok(r) = answer {
        results.copy_from_slice(&read_wheel::all_numbers(r));
    }
}

// The results of a drive.
pub fn put_driven(results: &mut [f32], answer: Result<Driven, Refusal>)
    requires { length results.old ≡ at.DRIVE }
    ensures { results.new ≡ over results.old (λ d. driven_list (drive_reply d)) answer }
{
    if let Ok(d) = answer {
        let v = drive::results::velocity_numbers(d);
        let wake = f32::from(d.wake);
        results.copy_from_slice(&[v[0], v[1], v[2], v[3], v[4], v[5], wake]);
    }
}

// The sight of wheel i, at its place.
fn put_sight(results: &mut [f32], i: usize, s: Sight)
    requires { (length results.old ≡ at.AIM) × (i < lent.WHEELS) }
    ensures { results.new ≡ paste results.old (at.SIGHTS + i * SIGHT) (sight_list s) }
{
    let a = SIGHTS + i * SIGHT;
    let e = a + SIGHT;
    results[a..e].copy_from_slice(&aim::sight_numbers(s));
}

// The sights of all wheels, at their places.
fn put_sights(results: &mut [f32], sights: [Sight; WHEELS])
    requires { length results.old ≡ at.AIM }
    ensures { results.new ≡ paste results.old at.SIGHTS (sights_list sights) }
{
    for i in 0..WHEELS {
        put_sight(results, i, sights[i]);
    }
}

// The results of an aim.
pub fn put_aimed(results: &mut [f32], answer: Result<Aimed, Refusal>)
    requires { length results.old ≡ at.AIM }
    ensures { results.new ≡ over results.old (λ a. aimed_list a.speed a.sights) answer }
{
    if let Ok(a) = answer {
        results[SPEED] = a.speed;
        put_sights(results, a.sights);
    }
}
