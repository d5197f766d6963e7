// Document 01, "Scenario program": the lines that are printed. They are put behind the text of a `Text`.
#![tactic(auto)]

pub mod layout; // the numbers of a line
pub mod text; // a text in a fixed memory

ghost use Rattle.std.specs.Prelude.{[], ◌∷◌, ◌++◌, ◌≡◌, ◌+◌, ◌*◌, ◌≤◌, ◌<◌, length};
ghost use Rattle.lines.specs.Layout as layout;
ghost use Rattle.lines.specs.Line as line;

use self::layout::*;
use self::text::Text;

// The character of a digit.
#[tactic(auto, unfolding(crate::specs::Line::glyph, lists::specs::Pick::pick))]
fn glyph(d: u32) -> u8
    requires { d < layout.HEX }
    ensures { result ≡ line.glyph d }
{
    if d < TEN {
        ZERO + d as u8
    } else {
        LETTER_A + (d - TEN) as u8
    }
}

// The last digits of n in a base, as many as there is room for, from the last to the first.
fn spell(n: u32, base: u32, out: &mut [u8])
    requires { (1 < base) × (base ≤ layout.HEX) }
    ensures { out.new ≡ line.digits base (length out.old) n }
{
    let mut rest = n;
    for i in (0..out.len()).rev() {
        out[i] = glyph(rest % base);
        rest /= base;
    }
}

// How many digits n has in base ten.
fn places(n: u32) -> usize
    ensures { result ≡ line.places n }
{
    let mut k = 1usize;
    let mut rest = n;
    while rest >= TEN {
        rest /= TEN;
        k += 1usize;
    }
    k
}
