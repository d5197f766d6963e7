// The call of a scenario code: its words in, its answer and its results out.
#![tactic(auto)]

mod calls; // add, controls and read
mod frames; // aim and drive

ghost use Rattle.std.specs.Prelude.{◌≡◌, replicate};
ghost use Rattle.real.specs.Number.{zero};
ghost use Rattle.table.specs.Layout as at;
ghost use Rattle.grammar.specs.declared.Asked.{Asked};
ghost use Rattle.grammar.specs.Grammar.{asked};
ghost use Rattle.scenario.specs.Format.{format};
ghost use Rattle.scenario.specs.Decode.{number_from};
ghost use Rattle.perform.specs.Call.{call_of, Counted, Performs};

use grammar::Asked;
use grammar::layout::CODE_WORDS;
use lines::layout::RESULTS;
use refusals::Refusal;
use replies::Extent;
use scenario::decode;
use table::layout::{SIZE, WHOLE};

// What the program keeps: the table and the whole numbers.
#[derive(Drop)]
pub struct Car {
    pub table: [f32; SIZE],
    pub whole: [u32; WHOLE],
}

impl Car {
    // Zeros: no vehicle yet.
    pub fn new() -> Car
        ensures { (result.table ≡ replicate at.SIZE zero) × (result.whole ≡ replicate at.WHOLE 0) }
    {
        Car {
            table: [0.0; SIZE],
            whole: [0u32; WHOLE],
        }
    }
}

// Makes the call that the words of a whole code ask for; its results go into the lent ones. Answers how many they are.
#[tactic(auto, unfolding(crate::specs::Call::call_of, crate::specs::Call::call_for, scenario::specs::Decode::number_from, replies::specs::Replies::results_of))]
pub fn perform(
    words: &[u32; CODE_WORDS],
    car: &mut Car,
    results: &mut [u32; RESULTS],
) -> Result<usize, Refusal>
    requires { asked (number_from words.now 0) ≡ Asked.Drive → Counted words.now }
    ensures { Performs (call_of format words.now car.old.table car.old.whole) result results.old results.new car.new }
{
    let asked = Asked::from(words[0]);
    match asked {
        Asked::End => Ok(0),
        Asked::Add => calls::call_add(car, decode::settings_from(words)),
        Asked::Controls => calls::call_controls(words, car, decode::controls_from(words)),
        Asked::Aim => frames::call_aim(words, car, results),
        Asked::Drive => frames::call_drive(words, car, results),
        Asked::Read => calls::call_read(words, car, Extent::Document, results),
        Asked::AddRolled => calls::call_add(car, decode::rolled_from(words)),
        Asked::ReadSettled => calls::call_read(words, car, Extent::Settled, results),
        Asked::ReadAll => calls::call_read(words, car, Extent::All, results),
        Asked::ControlsByAngle => {
            calls::call_controls(words, car, decode::controls_by_angle_from(words))
        }
        Asked::Unknown => Ok(0),
    }
}
