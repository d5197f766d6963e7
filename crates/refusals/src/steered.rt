// Refusal 17: steering angles that make no rotation.
ghost use Rattle.std.specs.Prelude.{◌≡◌, ◌<◌, length};
ghost use Rattle.std.specs.Float.{binary32};
ghost use Rattle.table.specs.Layout as at;
ghost use Rattle.table.specs.Rows.{wheel_at};
ghost use Rattle.refusals.specs.Steered.{turn_ok, steering_ok, wheel_steered_ok};

use table::layout::SIZE;
use vector::Vector;
use wheel::Steering;

fn is_turn_ok(direction: Vector, angle: f32) -> bool
    ensures { result ≡ turn_ok binary32 direction angle }
{
    let axis = wheel::steer::steering_axis(direction);
    if axis.fellback {
        return false;
    }
    ranges::is_rotation_in_range(wheel::steer::rotation_from_angle(axis.vector, angle))
}

fn is_steering_ok(direction: Vector, s: Steering) -> bool
    ensures { result ≡ steering_ok binary32 direction s }
{
    match s {
        Steering::ByRotation(_) => true,
        Steering::ByAngle(angle) => is_turn_ok(direction, angle),
    }
}

// Whether the steering of wheel i of an aimed table makes a rotation.
#[tactic(auto, unfolding(crate::specs::Steered::wheel_steered_ok))]
pub fn is_wheel_steered_ok(table: &[f32; SIZE], i: usize) -> bool
    requires { i < at.WHEELS }
    ensures { result ≡ wheel_steered_ok binary32 (wheel_at table.now i) }
{
    let w = table::rows::get_wheel(table, i);
    let c = w.controls;
    let p = w.place;
    is_steering_ok(p.direction, Steering::from(c.steering))
}
