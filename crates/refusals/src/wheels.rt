// The tests of every wheel of a table: refusals 10 and 17.
ghost use Rattle.std.specs.Prelude.{◌≡◌, ◌≤◌};
ghost use Rattle.std.specs.Float.{binary32};
ghost use Rattle.table.specs.Layout as at;
ghost use Rattle.ranges.specs.Ranges.{stored_in_range};
ghost use Rattle.refusals.specs.Steered.{all_steered_ok};

use super::steered;
use table::layout::SIZE;

// Refusal 10, of what the first n wheels have stored.
pub fn are_wheels_in_range(table: &[f32; SIZE], n: usize) -> bool
    requires { n ≤ at.WHEELS }
    ensures { result ≡ stored_in_range binary32 table.now n }
{
    (0..n).all(|i| ranges::is_wheel_in_range(table, i))
}

// Refusal 17, of what an aim makes of the steering of the first n wheels.
pub fn are_wheels_steered_ok(table: &[f32; SIZE], n: usize) -> bool
    requires { n ≤ at.WHEELS }
    ensures { result ≡ all_steered_ok binary32 table.now n }
{
    (0..n).all(|i| steered::is_wheel_steered_ok(table, i))
}
