// The window on the stream: a run takes bytes from its start, and the next bytes are read behind those that are left.
ghost use Rattle.std.specs.Prelude.{List, ℕ, [], ◌≡◌, ◌≤◌, length, take, drop};
ghost use Rattle.scenario.specs.Format.{format};
ghost use Rattle.session.specs.Layout as layout;
ghost use Rattle.session.specs.Runs.{Came, Steps, run_of};

use super::layout::{TEXT_BYTES, WINDOW_BYTES};
use super::{Stands, runs};
use lines::text::Text;
use perform::Car;
use std::io::{self, Read};
use std::marker::Model;

// At most N bytes, in a memory of its own: contracts see the bytes.
#[derive(Drop)]
pub struct Window<const N: usize> {
    bytes: [u8; N],
    filled: usize,
}

impl<const N: usize> Model for Window<N> {
    ghost Value = { List ℕ };

    ghost view = { λ w. take w.filled w.bytes };

    ghost invariant = { λ w. w.filled ≤ N };
}

impl<const N: usize> Window<N> {
    pub fn new() -> Self
        ensures { result ≡ [] }
    {
        Window {
            bytes: [0; N],
            filled: 0,
        }
    }

    // A window of the first bytes of a memory.
    pub fn over(bytes: [u8; N], filled: usize) -> Self
        requires { filled ≤ N }
        ensures { result ≡ take filled bytes.entry }
    {
        Window { bytes, filled }
    }

    pub fn len(&self) -> usize
        ensures { (result ≡ length self.now) × (result ≤ N) }
    {
        self.filled
    }

    pub fn as_bytes(&self) -> &[u8]
        ensures { result.now ≡ self.now }
    {
        &self.bytes[..self.filled]
    }

    // No bytes are left.
    pub fn clear(&mut self)
        ensures { self.new ≡ [] }
    {
        self.filled = 0;
    }

    // The first n bytes go, and the others are moved to the start.
    pub fn drop_front(&mut self, n: usize)
        requires { n ≤ length self.old }
        ensures { self.new ≡ drop n self.old }
    {
        self.bytes.copy_within(n..self.filled, 0);
        self.filled -= n;
    }

    // Reads once, behind the bytes that are there: those that came are the window's then.
    pub fn read_from<R: Read>(&mut self, reader: &mut R) -> io::Result<usize>
        ensures { Came result self.old self.new }
    {
        let all = &mut self.bytes[..];
        let n = reader.read(&mut all[self.filled..])?;
        self.filled += n;
        Ok(n)
    }
}

// Runs the codes of the window's bytes, and drops those that are done with. The text is the run's.
pub fn step(
    window: &mut Window<WINDOW_BYTES>,
    last: bool,
    car: &mut Car,
    text: &mut Text<TEXT_BYTES>,
) -> Stands
    ensures { Steps (run_of format last car.old layout.TEXT-BYTES window.old) window.old result window.new text.new car.new }
{
    let run = runs::run_codes(window.as_bytes(), last, car, text);
    let taken = run.taken;
    window.drop_front(taken);
    run.stands
}
