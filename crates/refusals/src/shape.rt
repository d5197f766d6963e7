// Refusal 1: the lent table and the whole numbers beside it.
ghost use Rattle.std.specs.Prelude.{◌≡◌};
ghost use Rattle.refusals.specs.Shape.{sizes_ok, axes_ok, status_ok, shape_ok, Shaped};

use super::Refusal;
use table::layout::*;

// No vehicle has more wheels.
const MOST_COUNT: u32 = WHEELS as u32;

pub fn are_sizes_ok(table: &[f32], whole: &[u32]) -> bool
    ensures { result ≡ sizes_ok table.now whole.now }
{
    if table.len() != SIZE {
        return false;
    }
    whole.len() == WHOLE
}

pub fn are_axes_ok(up: u32, forward: u32) -> bool
    ensures { result ≡ axes_ok up forward }
{
    if up > 2 {
        return false;
    }
    forward <= 2
}

fn is_status_ok(count: u32, mark: u32) -> bool
    ensures { result ≡ status_ok count mark }
{
    if count > MOST_COUNT {
        return false;
    }
    mark <= DRIVEN
}

// Whether no call but set-up would refuse these with 1.
pub fn is_shape_ok(table: &[f32], whole: &[u32]) -> bool
    ensures { result ≡ shape_ok table.now whole.now }
{
    if !are_sizes_ok(table, whole) {
        return false;
    }
    if !is_status_ok(whole[COUNT], whole[MARK]) {
        return false;
    }
    are_axes_ok(whole[UP], whole[FORWARD])
}

// The lent numbers as arrays of their sizes, unless a call is to refuse them with 1.
pub fn vehicle<'a>(
    table: &'a [f32],
    whole: &'a [u32],
) -> Result<(&'a [f32; SIZE], &'a [u32; WHOLE]), Refusal>
    ensures { Shaped table.now whole.now result }
{
    if !is_shape_ok(table, whole) {
        return Err(Refusal::NoVehicle);
    }
    Ok((table.try_into().unwrap(), whole.try_into().unwrap()))
}
