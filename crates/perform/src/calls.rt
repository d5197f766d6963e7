// The calls between frames, made from the words of their codes: add, controls, read. Each answers how many results it has.
ghost use Rattle.std.specs.Prelude.{◌≡◌};
ghost use Rattle.refusals.specs.After.{after};
ghost use Rattle.add_wheel.specs.Add.{add_wheel};
ghost use Rattle.set_controls.specs.Controls.{set_controls};
ghost use Rattle.scenario.specs.Format.{format};
ghost use Rattle.scenario.specs.Decode.{wheel_from};
ghost use Rattle.replies.specs.Replies.{results_of};
ghost use Rattle.perform.specs.Call.{number_in, count_in, read_call, Performs};

use super::Car;
use grammar::layout::CODE_WORDS;
use lines::layout::RESULTS;
use refusals::Refusal;
use replies::Extent;
use scenario::decode;
use wheel::{Controls, Settings};

// Adds a wheel with these settings.
pub fn call_add(car: &mut Car, s: Settings) -> Result<usize, Refusal>
    ensures { (after (number_in result) car.new.table car.new.whole ≡ add_wheel car.old.table car.old.whole s) × (count_in result ≡ 0) }
{
    add_wheel::add_wheel(&mut car.table, &mut car.whole, s)?;
    Ok(0)
}

// Sets the controls of the wheel that the words name.
pub fn call_controls(
    words: &[u32; CODE_WORDS],
    car: &mut Car,
    c: Controls,
) -> Result<usize, Refusal>
    ensures { (after (number_in result) car.new.table car.new.whole ≡ set_controls format car.old.table car.old.whole (wheel_from words.now) c) × (count_in result ≡ 0) }
{
    let wheel = decode::wheel_from(words);
    set_controls::set_controls(&mut car.table, &mut car.whole, wheel, c)?;
    Ok(0)
}

// Reads the wheel that the words name; if accepted, its numbers go into the results, to this extent.
pub fn call_read(
    words: &[u32; CODE_WORDS],
    car: &Car,
    extent: Extent,
    results: &mut [u32; RESULTS],
) -> Result<usize, Refusal>
    ensures { Performs (read_call format (λ x. results_of format extent x) words.now car.now.table car.now.whole) result results.old results.new car.now }
{
    let wheel = decode::wheel_from(words);
    let r = read_wheel::read_wheel(&car.table, &car.whole, wheel)?;
    Ok(replies::put_reading(results, extent, r))
}
