// Document 01, "Scenario program": a stream of codes from standard input, and a line for each to standard output.
#![tactic(auto)]

use lines::text::Text;
use perform::Car;
use session::layout::{TEXT_BYTES, WINDOW_BYTES};
use session::window::Window;

fn main(rt: HostRuntime) {
    let mut reader = rt.stdin();
    let mut writer = rt.stdout();
    let mut car = Car::new();
    let mut window: Window<WINDOW_BYTES> = Window::new();
    let mut text: Text<TEXT_BYTES> = Text::new();
    console::run(&mut reader, &mut writer, &mut window, &mut car, &mut text);
}
