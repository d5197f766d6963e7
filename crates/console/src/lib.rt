// The scenario program between a reader and a writer: standard input and standard output. Their contracts tell neither which bytes arrive nor what was
// written. Those here say that the program went as `session` defines it over some blocks, those that were read, and that only its own texts are handed to
// the write. A stream of any length runs in the same memory.
#![tactic(auto)]

ghost use Rattle.std.specs.Prelude.{◌↔◌, ◌≤◌, ◌≡◌, IfErr, IsTrue, length};
ghost use Rattle.std.specs.IoError.{error_kind};
ghost use Rattle.scenario.specs.Format.{format};
ghost use Rattle.session.specs.Layout as layout;
ghost use Rattle.session.specs.Program.{start_car};
ghost use Rattle.session.specs.Runs.{run_of};
ghost use Rattle.console.specs.Reading.{input, Interrupted, Fills, ReadsMore, ReadsOn};
ghost use Rattle.console.specs.Writing.{Printed};
ghost use Rattle.console.specs.Turning.{Turned};
ghost use Rattle.console.specs.Serves.{Serves};

use lines::text::Text;
use perform::Car;
use session::Stands;
use session::layout::{TEXT_BYTES, WINDOW_BYTES};
use session::window::Window;
use std::io::{self, ErrorKind, Read, Write};

// Where the reading stands: whether the input has ended, and whether the program runs on.
#[derive(Clone, Copy)]
struct Input {
    last: bool,
    runs: bool,
}

// The two in one.
fn standing(last: bool, runs: bool) -> Input
    ensures { result ≡ input last runs }
{
    Input { last, runs }
}

// Writes a text of the program's, and answers whether it could. All that is written goes through here.
fn print<W: Write>(writer: &mut W, text: &[u8]) -> bool
    requires { Printed text.now }
{
    writer.write_all(text).is_ok()
}

// Whether a read that answered so was interrupted by a signal before it had any byte.
fn is_interrupted(got: &io::Result<usize>) -> bool
    ensures moved { Interrupted got.now result }
    ensures failed { IfErr got.now (λ e. IsTrue result ↔ (error_kind e ≡ ErrorKind.Interrupted)) }
{
    match got {
        Ok(_) => false,
        Err(e) => e.kind() == ErrorKind::Interrupted,
    }
}

// Reads behind the window's bytes, and answers how many it has then: as many as before at the end of the input, or where it cannot be read. An interrupted
// read is no end: it is made again, and since a proved loop has to end, the tries are counted, up to a number that no run uses up.
pub fn fill<R: Read>(reader: &mut R, window: &mut Window<WINDOW_BYTES>) -> usize
    ensures { Fills window.old window.new × (result ≡ length window.new) × (result ≤ layout.WINDOW-BYTES) }
{
    for _ in 0..u64::MAX {
        let got = window.read_from(reader);
        if !is_interrupted(&got) {
            break;
        }
    }
    window.len()
}

// Reads behind the window's bytes. A read that gives nothing is the last one.
fn read_more<R: Read>(reader: &mut R, window: &mut Window<WINDOW_BYTES>) -> Input
    ensures { ReadsMore result window.old window.new }
{
    let before = window.len();
    let now = fill(reader, window);
    standing(now == before, true)
}

// What comes after a step whose text is written: another one at once, or when more bytes have come; or nothing.
fn read_on<R: Read>(
    reader: &mut R,
    window: &mut Window<WINDOW_BYTES>,
    stands: Stands,
    last: bool,
) -> Input
    ensures { ReadsOn stands last result window.old window.new }
{
    match stands {
        Stands::Ended => standing(last, false),
        Stands::Full => standing(last, true),
        Stands::More => read_more(reader, window),
    }
}

// Runs the codes in the window, writes their lines, and reads on. A text that cannot be written ends the program, with no bytes left.
fn turn<R: Read, W: Write>(
    reader: &mut R,
    writer: &mut W,
    window: &mut Window<WINDOW_BYTES>,
    input: Input,
    car: &mut Car,
    text: &mut Text<TEXT_BYTES>,
) -> Input
    ensures { Turned (run_of format input.last car.old layout.TEXT-BYTES window.old) window.old input.last result window.new text.new car.new }
{
    let stands = session::window::step(window, input.last, car, text);
    if !print(writer, text.as_bytes()) {
        window.clear(); // nothing is left to go on with
        return standing(true, false);
    }
    read_on(reader, window, stands, input.last)
}

// Takes turns from the window's bytes until the program ends, and answers how many bytes are left: a code 0 that ended it
// is the first. A proved loop has to end, and nothing says that a stream does: the turns are counted, up to a number that no run uses up.
fn serve<R: Read, W: Write>(
    reader: &mut R,
    writer: &mut W,
    window: &mut Window<WINDOW_BYTES>,
    car: &mut Car,
    text: &mut Text<TEXT_BYTES>,
) -> usize
    ensures { Serves car.old window.old window.new car.new × (result ≡ length window.new) × (result ≤ layout.WINDOW-BYTES) }
{
    let mut input = standing(false, true);
    for _ in 0..u64::MAX {
        if !input.runs {
            break;
        }
        input = turn(reader, writer, window, input, car, text);
    }
    window.len()
}

// Runs the program from its start, over the window's bytes and then over what is read, and answers how many bytes are left: none where a text could not be
// written.
pub fn run<R: Read, W: Write>(
    reader: &mut R,
    writer: &mut W,
    window: &mut Window<WINDOW_BYTES>,
    car: &mut Car,
    text: &mut Text<TEXT_BYTES>,
) -> usize
    ensures { Serves start_car window.old window.new car.new × (result ≡ length window.new) × (result ≤ layout.WINDOW-BYTES) }
{
    session::start::start(car, text);
    if print(writer, text.as_bytes()) {
        serve(reader, writer, window, car, text)
    } else {
        window.clear();
        0
    }
}
