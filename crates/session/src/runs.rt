// The codes of a window of the stream, one after another.
ghost use Rattle.scenario.specs.Format.{format};
ghost use Rattle.session.specs.Runs.{Runs, run_of};

use super::{Run, Stands};
use lines::layout::LINE_BYTES;
use lines::text::Text;
use perform::Car;
use turns::Next;

// Takes codes from the start of the bytes while they are whole, the program has not ended, and the text has room for another line. The text is theirs alone.
pub fn run_codes<const N: usize>(bytes: &[u8], last: bool, car: &mut Car, text: &mut Text<N>) -> Run
    ensures { Runs (run_of format last car.old N bytes.now) result text.new car.new }
{
    text.clear();
    let mut taken = 0usize;
    let stands = loop {
        if text.room() < LINE_BYTES {
            break Stands::Full;
        }
        let next = turns::take_code(&bytes[taken..], last, car, text);
        match next {
            Next::On(n) => taken += n,
            Next::Ended => break Stands::Ended,
            Next::More => break Stands::More,
        }
    };
    Run { taken, stands }
}
