// The results of an accepted call, put as words over the lent ones, in the order of docs/STREAM.md. Each function answers how many they are.
#![tactic(auto)]

ghost use Rattle.std.specs.Prelude.{◌≡◌, ◌+◌, ◌≤◌, length};
ghost use Rattle.lists.specs.Pick.{pick};
ghost use Rattle.lists.specs.Part.{paste};
ghost use Rattle.lists.specs.Puts.{Puts};
ghost use Rattle.table.specs.Layout as at;
ghost use Rattle.lines.specs.Layout as line;
ghost use Rattle.aim.specs.Aim.{aim_reply};
ghost use Rattle.aim.specs.Sights.{sight_list, sights_list};
ghost use Rattle.drive.specs.Drive.{drive_reply};
ghost use Rattle.read_wheel.specs.Read as read;
ghost use Rattle.read_wheel.specs.Read.{read_reply};
ghost use Rattle.scenario.specs.Format.{format};
ghost use Rattle.scenario.specs.Results.{words_of};
ghost use Rattle.replies.specs.Replies.{aim_results, drive_results, read_results, settled_results, all_results, results_of};

use aim::{Aimed, Sight, sight_numbers};
use drive::Driven;
use drive::results::{VELOCITIES, velocity_numbers};
use lines::layout::{RESULTS, WHEEL_RESULTS};
use read_wheel::{ALL, READING, Reading, SETTLED, all_numbers};
use scenario::results;

// What of a read a code prints: document 01's fifteen numbers; with the settled centre; and all, with the two answers on the directions.
#[derive(Clone, Copy)]
pub enum Extent {
    Document,
    Settled,
    All,
}

// Where a wheel's ray starts, and the ray, from word a on.
fn put_sight(words: &mut [u32], a: usize, s: Sight)
    requires { a + line.WHEEL-RESULTS ≤ length words.old }
    ensures { words.new ≡ paste words.old a (words_of format (sight_list s)) }
{
    let numbers = sight_numbers(s);
    results::put_numbers(words, a, &numbers);
}

// The sights, behind the speed.
fn put_sights(words: &mut [u32; RESULTS], sights: &[Sight]) -> usize
    requires { length sights.now ≤ at.WHEELS }
    ensures { Puts words.old words.new 1 result (words_of format (sights_list sights.now)) }
{
    let mut a = 1usize;
    for s in sights {
        put_sight(words, a, *s);
        a += WHEEL_RESULTS;
    }
    a
}

// The signed speed, and a sight for each of n wheels.
pub fn put_aimed(words: &mut [u32; RESULTS], n: usize, r: Aimed) -> usize
    requires { n ≤ at.WHEELS }
    ensures { Puts words.old words.new 0 result (aim_results format n (aim_reply r)) }
{
    let sights = r.sights;
    results::put_float(words, 0, r.speed);
    put_sights(words, &sights[..n])
}

// The six velocities, and the wake flag.
pub fn put_driven(words: &mut [u32; RESULTS], r: Driven) -> usize
    ensures { Puts words.old words.new 0 result (drive_results format (drive_reply r)) }
{
    let numbers = velocity_numbers(r);
    results::put_numbers(words, 0, &numbers);
    results::put_flag(words, VELOCITIES, r.wake);
    VELOCITIES + 1
}

// How many numbers a read has, with the settled centre or without.
#[tactic(auto, unfolding(lists::specs::Pick::pick))]
fn reading_count(settled: bool) -> usize
    ensures { result ≡ pick settled read.SETTLED read.READING }
{
    if settled { SETTLED } else { READING }
}

// The floats of a read, with the settled centre or without.
fn put_floats(words: &mut [u32; RESULTS], settled: bool, r: Reading) -> usize
    ensures { Puts words.old words.new 0 result (pick settled (settled_results format (read_reply r)) (read_results format (read_reply r))) }
{
    let numbers = all_numbers(r);
    let count = reading_count(settled);
    results::put_numbers(words, 0, &numbers[..count]);
    count
}

// The floats of a read with the settled centre, and whether the axis and the forward direction fell back to zero.
fn put_all(words: &mut [u32; RESULTS], r: Reading) -> usize
    ensures { Puts words.old words.new 0 result (all_results format (read_reply r)) }
{
    put_floats(words, true, r);
    results::put_flag(words, SETTLED, r.noaxis);
    results::put_flag(words, SETTLED + 1, r.noforward);
    ALL
}

// What a code prints of a read.
#[tactic(auto, unfolding(crate::specs::Replies::results_of, lists::specs::Pick::pick))]
pub fn put_reading(words: &mut [u32; RESULTS], extent: Extent, r: Reading) -> usize
    ensures { Puts words.old words.new 0 result (results_of format extent (read_reply r)) }
{
    match extent {
        Extent::Document => put_floats(words, false, r),
        Extent::Settled => put_floats(words, true, r),
        Extent::All => put_all(words, r),
    }
}
