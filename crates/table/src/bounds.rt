// How large a number may be: document 01, refusal 2.
ghost use Rattle.std.specs.Prelude.{◌≡◌, ◌≤◌};
ghost use Rattle.table.specs.Layout.{WHEELS};
ghost use Rattle.table.specs.Bounds.{all_within, stored_within};

use super::layout::SIZE;
use super::rows::row_start;

// 2^20, for a number that is handed in.
pub const HANDED: f32 = 1048576.0;

// 2^40, for a number that is stored.
pub const STORED: f32 = 1099511627776.0;

// Whether each number of s is finite and at most `most` in magnitude. Every number is looked at: with no way out of its middle the loop
// takes several at once.
pub fn all_within(most: f32, s: &[f32]) -> bool
    ensures { result ≡ all_within most s.now }
{
    s.iter().fold(true, |ok, x| ok & real::is_within(most, *x))
}

// Whether the kept chassis and the first n rows hold numbers that may be stored.
pub fn stored_within(table: &[f32; SIZE], n: usize) -> bool
    requires { n ≤ WHEELS }
    ensures { result ≡ stored_within table.now n }
{
    let e = row_start(n);
    all_within(STORED, &table[0..e])
}
