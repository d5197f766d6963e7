// One code: it is read whole, its call is made, and its line is put.
#![tactic(auto)]

ghost use Rattle.std.specs.Prelude.{◌+◌, ◌≤◌, ◌++◌, [], ◌≡◌, length};
ghost use Rattle.grammar.specs.declared.Asked.{Asked};
ghost use Rattle.grammar.specs.Grammar.{asked};
ghost use Rattle.lines.specs.Layout as lined;
ghost use Rattle.lines.specs.Line.{line};
ghost use Rattle.scenario.specs.Format.{format, hex_digits_of};
ghost use Rattle.scenario.specs.Decode.{number_from};
ghost use Rattle.perform.specs.Call.{Counted};
ghost use Rattle.turns.specs.Car.{MALFORMED};
ghost use Rattle.turns.specs.declared.Next.{Next};
ghost use Rattle.turns.specs.Turns.{Turns, following, called, turn_of};

use grammar::layout::{CODE_WORDS, END};
use lines::layout::RESULTS;
use lines::text::Text;
use perform::Car;
use refusals::Refusal;
use stream::Code;

// What follows a code: another one, so many bytes on; nothing; or more bytes have to come before it can be told.
#[derive(Clone, Copy)]
pub enum Next {
    On(usize),
    Ended,
    More,
}

// What follows a code that took so many bytes.
#[tactic(auto, unfolding(crate::specs::Turns::following, lists::specs::Pick::pick))]
fn following(code: u32, taken: usize) -> Next
    ensures { result ≡ following code taken }
{
    if code == END {
        Next::Ended
    } else {
        Next::On(taken)
    }
}

// Makes the call of a whole code's words, which took so many bytes, and puts its line.
fn make_call<const N: usize>(
    words: &[u32; CODE_WORDS],
    taken: usize,
    car: &mut Car,
    text: &mut Text<N>,
) -> Next
    requires { (length text.old + lined.LINE-BYTES ≤ N) × (asked (number_from words.now 0) ≡ Asked.Drive → Counted words.now) }
    ensures { Turns (called format words.now taken car.old) result text.old text.new car.new }
{
    let mut results = [0u32; RESULTS];
    let (number, count) = match perform::perform(words, car, &mut results) {
        Ok(count) => (0u32, count),
        Err(refusal) => (refusal.number(), 0usize),
    };
    let shown = words[0];
    text.put_line(shown, number, &results[..count]);
    following(shown, taken)
}

// Puts the line of a malformed place in a code. Nothing follows it.
fn put_malformed<const N: usize>(code: u32, text: &mut Text<N>) -> Next
    requires { length text.old + lined.LINE-BYTES ≤ N }
    ensures line { text.new ≡ text.old ++ line (hex_digits_of format) code MALFORMED [] }
    ensures next { result ≡ Next.Ended }
{
    text.put_line(code, Refusal::Malformed.number(), &[]);
    Next::Ended
}

// Takes the code at the start of the bytes, and puts its line. `last` says that no bytes follow these.
pub fn take_code<const N: usize>(
    bytes: &[u8],
    last: bool,
    car: &mut Car,
    text: &mut Text<N>,
) -> Next
    requires { length text.old + lined.LINE-BYTES ≤ N }
    ensures { Turns (turn_of format last car.old bytes.now) result text.old text.new car.new }
{
    let mut words = [0u32; CODE_WORDS];
    let code = stream::codes::read_code(bytes, &mut words);
    match code {
        Code::Whole(_, taken) => make_call(&words, taken, car, text),
        Code::Short(shown) => {
            if last {
                put_malformed(shown, text)
            } else {
                Next::More
            }
        }
        Code::Malformed(shown) => put_malformed(shown, text),
    }
}
