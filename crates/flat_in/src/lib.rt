// The lists of a drive that a host hands in: whether they fit together, and what they say.
#![tactic(auto)]

ghost use Rattle.std.specs.Prelude.{◌≡◌, true, false, ◌+◌, ◌*◌, ◌<◌, ◌≤◌, length, replicate};
ghost use Rattle.lists.specs.Part.{paste};
ghost use Rattle.lists.specs.All.{all};
ghost use Rattle.lists.specs.Refusal.{first_failed};
ghost use Rattle.table.specs.Layout as lent;
ghost use Rattle.refusals.specs.Refused.{answered};
ghost use Rattle.flat_in.specs.Layout as at;
ghost use Rattle.flat_in.specs.Lists.{at_most, flags_fit, answers_fit, lists_fit, flags_in, hit_in, hit_up_in, answer_in, answers_in, list_tests};

use layout::*;
use refusals::{Refusal, shape};
use table::layout as lent;
use wheel::RayAnswer;

pub mod layout; // where each number stands

// Whether each number of s is at most `most`.
fn all_at_most(most: u32, s: &[u32]) -> bool
    ensures { result ≡ all (at_most most) s.now }
{
    s.iter().all(|x| *x <= most)
}

// Whether there is room for the flags, and each is 0 or 1.
#[tactic(auto, unfolding(crate::specs::Lists::flags_fit, lists::specs::Pick::pick))]
fn do_flags_fit(dynamic: &[u32]) -> bool
    ensures { result ≡ flags_fit dynamic.now }
{
    dynamic.len() <= lent::BODIES && all_at_most(DYNAMIC, dynamic)
}

// Whether there is room for the answers, each kind is known, and the other two lists have their numbers for each.
#[tactic(auto, unfolding(crate::specs::Lists::answers_fit, lists::specs::Pick::pick))]
fn do_answers_fit(kinds: &[u32], named: &[u32], rays: &[f32]) -> bool
    ensures { result ≡ answers_fit kinds.now named.now rays.now }
{
    let n = kinds.len();
    n <= lent::WHEELS && named.len() == n && rays.len() == n * RAY && all_at_most(HIT_UP, kinds)
}

// Whether the lists of a drive fit together.
#[tactic(auto, unfolding(crate::specs::Lists::lists_fit, lists::specs::Pick::pick))]
fn do_lists_fit(dynamic: &[u32], kinds: &[u32], named: &[u32], rays: &[f32]) -> bool
    ensures { result ≡ lists_fit dynamic.now kinds.now named.now rays.now }
{
    do_flags_fit(dynamic) && do_answers_fit(kinds, named, rays)
}

// Refusals 1 and 5 of a drive, and 6 for lists that do not fit together.
#[tactic(auto, unfolding(crate::specs::Lists::list_tests, lists::specs::Refusal::first_failed, lists::specs::Pick::pick))]
pub fn refuse_lists(
    table: &[f32],
    whole: &[u32],
    dynamic: &[u32],
    kinds: &[u32],
    named: &[u32],
    rays: &[f32],
) -> Result<(), Refusal>
    ensures { answered result ≡ first_failed (list_tests table.now whole.now dynamic.now kinds.now named.now rays.now) }
{
    let (_, whole) = shape::vehicle(table, whole)?;
    if whole[lent::MARK] != lent::AIMED {
        return Err(Refusal::WrongMoment);
    }
    if !do_lists_fit(dynamic, kinds, named, rays) {
        return Err(Refusal::BadLists);
    }
    Ok(())
}

// The flags of a drive's bodies, and false after them.
pub fn decode_flags(dynamic: &[u32]) -> [bool; lent::BODIES]
    requires { length dynamic.now ≤ lent.BODIES }
    ensures { result ≡ paste (replicate lent.BODIES false) 0 (flags_in dynamic.now) }
{
    let mut flags = [false; lent::BODIES];
    for (i, d) in dynamic.iter().enumerate() {
        flags[i] = *d == DYNAMIC;
    }
    flags
}

// The hit of wheel i.
#[tactic(auto, unfolding(crate::specs::Lists::hit_in))]
fn hit_in(named: &[u32], rays: &[f32], i: usize) -> RayAnswer
    requires { (i < lent.WHEELS) × (i < length named.now) × (i * at.RAY + at.RAY ≤ length rays.now) }
    ensures { result ≡ hit_in named.now rays.now i }
{
    let a = i * RAY;
    let normal = table::parts::vector_at(rays, a + NORMAL);
    RayAnswer::Hit(rays[a + TIME], normal, named[i])
}

// The hit of wheel i, with the upward normal.
#[tactic(auto, unfolding(crate::specs::Lists::hit_up_in))]
fn hit_up_in(named: &[u32], rays: &[f32], i: usize) -> RayAnswer
    requires { (i < lent.WHEELS) × (i < length named.now) × (i * at.RAY + at.RAY ≤ length rays.now) }
    ensures { result ≡ hit_up_in named.now rays.now i }
{
    let a = i * RAY;
    let normal = table::parts::vector_at(rays, a + NORMAL);
    let upward = table::parts::vector_at(rays, a + UPWARD);
    RayAnswer::HitUp(rays[a + TIME], normal, upward, named[i])
}

// What the ray of wheel i met, by its kind.
#[tactic(auto, unfolding(crate::specs::Lists::answer_in, lists::specs::Pick::pick))]
fn answer_in(kinds: &[u32], named: &[u32], rays: &[f32], i: usize) -> RayAnswer
    requires { (i < lent.WHEELS) × (i < length kinds.now) × (i < length named.now) × (i * at.RAY + at.RAY ≤ length rays.now) }
    ensures { result ≡ answer_in kinds.now named.now rays.now i }
{
    match kinds[i] {
        HIT => hit_in(named, rays, i),
        HIT_UP => hit_up_in(named, rays, i),
        _ => RayAnswer::Nothing,
    }
}

// The ray answers of a drive, and nothing for the wheels after them.
pub fn decode_answers(kinds: &[u32], named: &[u32], rays: &[f32]) -> [RayAnswer; lent::WHEELS]
    requires { (length kinds.now ≤ lent.WHEELS) × (length named.now ≡ length kinds.now) × (length rays.now ≡ length kinds.now * at.RAY) }
    ensures { result ≡ answers_in kinds.now named.now rays.now }
{
    let mut answers = [RayAnswer::Nothing; lent::WHEELS];
    for i in 0..kinds.len() {
        answers[i] = answer_in(kinds, named, rays, i);
    }
    answers
}
