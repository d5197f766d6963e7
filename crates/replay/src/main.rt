// Stored scenarios, one after another: `stdin` has them, `stdout` the oracle's lines for them. tools/replay-sample made both.
#![tactic(auto)]

ghost use Rattle.std.specs.Prelude.{◌≡◌, length};
ghost use Rattle.replay.specs.Scenarios.{Plays, Begins};

use lines::text::Text;
use perform::Car;
use session::layout::{TEXT_BYTES, WINDOW_BYTES};
use session::window::Window;
use std::io::{Read, Write};

// The bytes of a code 0.
const END_BYTES: usize = 1;

// Plays the scenario at the start of the window, and answers how many bytes are left.
fn play<R: Read, W: Write>(
    reader: &mut R,
    writer: &mut W,
    window: &mut Window<WINDOW_BYTES>,
    text: &mut Text<TEXT_BYTES>,
) -> usize
    ensures { Plays window.old window.new × (result ≡ length window.new) }
{
    let mut car = Car::new();
    console::run(reader, writer, window, &mut car, text)
}

// The window goes on one byte behind the start of the code that ended a scenario, and reads on if nothing stands there; answers how many bytes it has.
// That is behind a code 0; in a malformed code, the rest of it.
fn next<R: Read>(reader: &mut R, window: &mut Window<WINDOW_BYTES>) -> usize
    ensures { Begins window.old window.new × (result ≡ length window.new) }
{
    if window.len() < END_BYTES {
        return 0;
    }
    window.drop_front(END_BYTES);
    let behind = window.len();
    if behind > 0 {
        return behind;
    }
    console::fill(reader, window)
}

// A proved loop has to end: the scenarios are counted, up to a number that no run reaches.
fn main(rt: HostRuntime) {
    let mut reader = rt.stdin();
    let mut writer = rt.stdout();
    let mut window: Window<WINDOW_BYTES> = Window::new();
    let mut text: Text<TEXT_BYTES> = Text::new();
    let mut filled = console::fill(&mut reader, &mut window);
    for _ in 0..u64::MAX {
        if filled == 0 {
            return;
        }
        play(&mut reader, &mut writer, &mut window, &mut text);
        filled = next(&mut reader, &mut window);
    }
}
