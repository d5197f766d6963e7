// Aim: the chassis kept, the wheels placed under it, and what the host casts.
#![tactic(auto)]

ghost use Rattle.std.specs.Prelude.{◌≡◌, ◌≤◌};
ghost use Rattle.std.specs.Float.{binary32};
ghost use Rattle.lists.specs.Refusal.{first_failed};
ghost use Rattle.table.specs.Layout as at;
ghost use Rattle.refusals.specs.After.{after};
ghost use Rattle.refusals.specs.Refused.{answered, replied};
ghost use Rattle.aim.specs.Aim.{speed_of, aimed_table, no_sight, sight_of, sights_of, chassis_tests, aim_reply, not_aimed, aim_of};
ghost use Rattle.aim.specs.Sights.{sight_list};

use body::Chassis;
use refusals::{Refusal, handed, shape, wheels};
use table::layout::*;
use vector::Vector;
use wheel::Wheel;

// Where a wheel's ray starts, and the ray.
#[derive(Clone, Copy)]
pub struct Sight {
    pub hard: Vector,
    pub ray: Vector,
}

// What an accepted aim answers: the signed speed, and a sight for each wheel; zeros for the others.
#[derive(Clone, Copy)]
pub struct Aimed {
    pub speed: f32,
    pub sights: [Sight; WHEELS],
}

// Rule 2: the signed speed.
fn speed_of(forward: u32, c: Chassis) -> f32
    ensures { result ≡ speed_of binary32 forward c }
{
    let p = c.pose;
    let v = c.body.linvel;
    let speed = vector::length(v);
    if vector::dot(vector::rotate(p.rotation, vector::ith(forward)), v) < 0.0 {
        -speed
    } else {
        speed
    }
}

#[tactic(auto, unfolding(crate::specs::Aim::no_sight))]
fn no_sight() -> Sight
    ensures { result ≡ no_sight }
{
    let zero = vector::zero();
    Sight {
        hard: zero,
        ray: zero,
    }
}

#[tactic(auto, unfolding(crate::specs::Aim::sight_of))]
fn sight_of(w: Wheel) -> Sight
    ensures { result ≡ sight_of binary32 w }
{
    let hard = w.info.hard;
    Sight {
        hard,
        ray: wheel::ray::ray_of(w),
    }
}

// The sights of the first n wheels.
fn sights_of(table: &[f32; SIZE], n: usize) -> [Sight; WHEELS]
    requires { n ≤ at.WHEELS }
    ensures { result ≡ sights_of binary32 n table.now }
{
    let none = no_sight();
    let mut all = [none; WHEELS];
    for i in 0..n {
        all[i] = sight_of(table::rows::get_wheel(table, i));
    }
    all
}

#[tactic(auto, using(lists::proofs::Picks::not_yes, lists::proofs::Picks::not_no, refusals::proofs::Lent::lent_shape, refusals::proofs::Lent::no_vehicle, refusals::proofs::Says::shape_says), unfolding(crate::specs::Aim::chassis_tests, lists::specs::Refusal::first_failed))]
fn refuse_chassis(table: &[f32], whole: &[u32], c: Chassis) -> Result<(), Refusal>
    ensures { answered result ≡ first_failed (chassis_tests binary32 table.now whole.now c) }
{
    let (table, whole) = shape::vehicle(table, whole)?;
    let count = whole[COUNT] as usize;
    if !handed::is_chassis_handed(c) {
        return Err(Refusal::BadNumber);
    }
    if !table::bounds::stored_within(table, count) {
        return Err(Refusal::BadNumber);
    }
    if !ranges::is_chassis_in_range(c) {
        return Err(Refusal::OutOfRange);
    }
    if !wheels::are_wheels_in_range(table, count) {
        return Err(Refusal::OutOfRange);
    }
    Ok(())
}

// The table with the chassis kept and the first n wheels under its pose.
#[tactic(auto, unfolding(crate::specs::Aim::aimed_table))]
fn aimed_table(table: &mut [f32; SIZE], n: usize, c: Chassis)
    requires { n ≤ at.WHEELS }
    ensures { table.new ≡ aimed_table binary32 c n table.old }
{
    table::rows::put_chassis(table, c);
    passes::rows::transform_pass(table, n, c.pose);
}

// Takes the chassis and keeps it, works out where the wheels are, and answers what the host casts. The mark becomes aimed.
// Takes: the table and the whole numbers of a vehicle; the chassis.
// Answers the signed speed and, for each wheel, where its ray starts and the ray; or refuses with the first that holds:
// 1, no vehicle's table; 2, a number handed in that is not finite or above 2^20 in magnitude, or a stored one that is not finite
// or above 2^40; 10, a chassis whose inverse mass is not from 2^-20 to 2^20 or whose rotation's sum of squares is not from 1 - 2^-10 to
// 1 + 2^-10, or a stored setting out of its range; 17, a wheel steered by an angle whose world direction has no unit length, or with whose
// axis the angle makes no rotation of unit length; 8, a new number that could not be stored.
#[tactic(auto, using(crate::proofs::Accepted::tested_shape))]
pub fn aim(table: &mut [f32], whole: &mut [u32], c: Chassis) -> Result<Aimed, Refusal>
    ensures { after (replied aim_reply not_aimed result) table.new whole.new ≡ aim_of binary32 table.old whole.old c }
{
    refuse_chassis(table, whole, c)?;
    let n = whole[COUNT] as usize;
    let forward = whole[FORWARD];
    let mut work = [0.0; SIZE];
    work.copy_from_slice(table);
    aimed_table(&mut work, n, c);
    if !wheels::are_wheels_steered_ok(&work, n) {
        return Err(Refusal::BadTurn);
    }
    if !table::bounds::stored_within(&work, n) {
        return Err(Refusal::WildStep);
    }
    table.copy_from_slice(&work);
    whole[MARK] = AIMED;
    Ok(Aimed {
        speed: speed_of(forward, c),
        sights: sights_of(&work, n),
    })
}

// How many numbers a sight has.
pub const SIGHT: usize = 6;

// Where a wheel's ray starts, and the ray.
pub fn sight_numbers(s: Sight) -> [f32; SIGHT]
    ensures { result ≡ sight_list s }
{
    let h = s.hard;
    let r = s.ray;
    [h.x, h.y, h.z, r.x, r.y, r.z]
}
