// Set up: makes any lent numbers a vehicle with no wheels. The other calls are in crates `add_wheel`, `set_controls`, `aim`, `drive` and `read_wheel`.
// Every call is total on every table and every number, NaN included; a refusal answers its number, and changes nothing lent.
//
// The life of a table: set_up once; add_wheel for each wheel; then for each frame set_controls as needed, aim, cast the rays that the aim
// answered, drive with what they met, and read_wheel. The table is `layout::SIZE` numbers; beside it stand `layout::WHOLE` whole numbers.
#![tactic(auto)]

ghost use Rattle.std.specs.Prelude.{◌≡◌};
ghost use Rattle.refusals.specs.After.{after};
ghost use Rattle.refusals.specs.Refused.{answered};
ghost use Rattle.set_up.specs.SetUp.{refuse_set_up, set_up};

use refusals::{Refusal, shape};
use table::layout::*;

fn refuse_set_up(table: &[f32], whole: &[u32], up: u32, forward: u32) -> Result<(), Refusal>
    ensures { answered result ≡ refuse_set_up table.now whole.now up forward }
{
    if !shape::are_sizes_ok(table, whole) {
        return Err(Refusal::NoVehicle);
    }
    if !shape::are_axes_ok(up, forward) {
        return Err(Refusal::NoVehicle);
    }
    Ok(())
}

// Makes the lent numbers a vehicle with no wheels, whatever they hold: the table is cleared, the count is 0, the mark new, and the axes are
// those handed in (0 x, 1 y, 2 z; the source's are up 1 and forward 0).
// Takes: `table`, SIZE numbers; `whole`, WHOLE whole numbers; the numbers of the up and the forward axis.
// Refuses with 1: a wrong size, or an axis above 2.
pub fn set_up(table: &mut [f32], whole: &mut [u32], up: u32, forward: u32) -> Result<(), Refusal>
    ensures { after (answered result) table.new whole.new ≡ set_up table.old whole.old up forward }
{
    refuse_set_up(table, whole, up, forward)?;
    table.fill(0.0);
    whole[COUNT] = 0;
    whole[MARK] = NEW;
    whole[UP] = up;
    whole[FORWARD] = forward;
    Ok(())
}
