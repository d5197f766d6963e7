// One wheel of a drive: document 01, rules 6 to 10, in the source's order. `tuning` is the one that counts in the step.
ghost use Rattle.std.specs.Prelude.{◌≡◌};
ghost use Rattle.std.specs.Float.{binary32};
ghost use Rattle.road.specs.Step.{contact_force, wheel_force, apply_suspension, wheel_limit, side_demand, rolling_demand, friction_of, side_point, apply_friction, contact_spin, spun_by, update_rotation};

use super::contact;
use body::{Body, Chassis, GroundBody};
use tyre::{Friction, WheelTuning, demand, grip, suspension};
use vector::Vector;
use wheel::{Directions, Motion, Wheel};

// Rule 6: the force of the wheel's spring in contact.
#[tactic(auto, unfolding(crate::specs::Step::contact_force))]
fn contact_force(tuning: WheelTuning, invmass: f32, w: Wheel) -> f32
    ensures { result ≡ contact_force binary32 tuning invmass w }
{
    suspension::suspension_force(tuning, w.settings.rest, w.info.length, w.approach, invmass)
}

// Rule 6: the force of the wheel's spring; 0 in the air.
#[tactic(auto, unfolding(crate::specs::Step::wheel_force))]
pub fn wheel_force(tuning: WheelTuning, invmass: f32, contact: bool, w: Wheel) -> f32
    ensures { result ≡ wheel_force binary32 tuning invmass contact w }
{
    if contact {
        contact_force(tuning, invmass, w)
    } else {
        0.0
    }
}

// Rule 6: the chassis after the impulse of the wheel's spring, whose force is cut to the maximum.
#[tactic(auto, unfolding(crate::specs::Step::apply_suspension))]
pub fn apply_suspension(tuning: WheelTuning, dt: f32, w: Wheel, chassis: Chassis) -> Chassis
    ensures { result ≡ apply_suspension binary32 tuning dt w chassis }
{
    let info = w.info;
    let force = suspension::cut_of(w.motion.force, tuning.most);
    let impulse = vector::scale(vector::scale(info.normal, force), dt);
    body::apply_impulse_at_point(chassis, impulse, info.point)
}

// Rule 6: the wheel's grip limit.
#[tactic(auto, unfolding(crate::specs::Step::wheel_limit))]
pub fn wheel_limit(tuning: WheelTuning, dt: f32, w: Wheel) -> f32
    ensures { result ≡ wheel_limit binary32 tuning dt w }
{
    grip::limit_of(w.motion.force, dt, tuning.slip)
}

// Rule 7: the side demand of a grounded wheel with this axis: the source's resolve_single_bilateral and resolve_single_unilateral in one, times
// the side stiffness.
#[tactic(auto, unfolding(crate::specs::Step::side_demand))]
fn side_demand(
    tuning: WheelTuning,
    chassis: Body,
    surface: Option<GroundBody>,
    axis: Vector,
    w: Wheel,
) -> f32
    ensures { result ≡ side_demand binary32 tuning chassis surface axis w }
{
    let p = w.info.point;
    let counted = contact::dynamic_ground(surface);
    let speed = vector::dot(axis, contact::relative_velocity(chassis, counted, p));
    let sum = contact::jacobian_diagonal(chassis, counted, p, axis);
    demand::side_response(speed, sum, tuning.sideways)
}

// Rule 7: the rolling demand of a grounded wheel with this rolling direction.
#[tactic(auto, unfolding(crate::specs::Step::rolling_demand))]
fn rolling_demand(
    dt: f32,
    chassis: Body,
    surface: Option<GroundBody>,
    grounded: u8,
    forward: Vector,
    w: Wheel,
) -> f32
    ensures { result ≡ rolling_demand binary32 dt chassis surface grounded forward w }
{
    let p = w.info.point;
    let speed = vector::dot(forward, contact::relative_velocity(chassis, surface, p));
    let sum = contact::denominators_of(chassis, surface, p, forward);
    let uncut = demand::rolling_response(speed, sum, grounded);
    demand::rolling_of(dt, w.controls.engine, w.controls.brake, uncut)
}

// Rules 7 and 8: the demands and the skid of the wheel with these directions, before the rescale.
#[tactic(auto, unfolding(crate::specs::Step::friction_of))]
pub fn friction_of(
    tuning: WheelTuning,
    dt: f32,
    chassis: Body,
    contact: bool,
    surface: Option<GroundBody>,
    grounded: u8,
    d: Directions,
    w: Wheel,
) -> Friction
    ensures { result ≡ friction_of binary32 tuning dt chassis contact surface grounded d w }
{
    if contact {
        let forward = rolling_demand(dt, chassis, surface, grounded, d.forward.vector, w);
        let side = side_demand(tuning, chassis, surface, d.axis.vector, w);
        grip::with_skid(forward, side, wheel_limit(tuning, dt, w))
    } else {
        grip::airborne()
    }
}

// Rule 9: where the side impulse is applied.
#[tactic(auto, unfolding(crate::specs::Step::side_point))]
fn side_point(roll: f32, up: Vector, point: Vector, centre: Vector) -> Vector
    ensures { result ≡ side_point binary32 roll up point centre }
{
    let height = vector::dot(up, vector::sub(point, centre));
    vector::sub(point, vector::scale(up, height * (1.0 - roll)))
}

// Rule 9: the chassis after the two impulses of the wheel with these directions.
#[tactic(auto, unfolding(crate::specs::Step::apply_friction))]
pub fn apply_friction(up: Vector, d: Directions, w: Wheel, chassis: Chassis) -> Chassis
    ensures { result ≡ apply_friction binary32 up d w chassis }
{
    let m = w.motion;
    let point = w.info.point;
    let rolled = body::apply_impulse_at_point(
        chassis,
        vector::scale(d.forward.vector, m.forward),
        point,
    );
    let lifted = side_point(w.settings.roll, up, point, chassis.body.centre);
    body::apply_impulse_at_point(rolled, vector::scale(d.axis.vector, m.side), lifted)
}

// Rule 10: the spin of a wheel in contact.
#[tactic(auto, unfolding(crate::specs::Step::contact_spin))]
fn contact_spin(dt: f32, chassis: Body, w: Wheel) -> f32
    ensures { result ≡ contact_spin binary32 dt chassis w }
{
    let info = w.info;
    let forward = vector::normalize_or_zero(vector::cross(info.normal, w.place.axle));
    let speed = vector::dot(forward.vector, body::velocity_at_point(chassis, info.hard));
    speed * dt / w.settings.radius
}

// Rule 10: the wheel rotated by a spin.
#[tactic(auto, using(real::proofs::Literals::kept_is), unfolding(crate::specs::Step::spun_by))]
fn spun_by(spin: f32, w: Wheel) -> Wheel
    ensures { result ≡ spun_by binary32 spin w }
{
    let motion = Motion {
        rotation: w.motion.rotation + spin,
        spin: spin * 0.99,
        ..w.motion
    };
    Wheel { motion, ..w }
}

// Rule 10: the wheel after the drive.
#[tactic(auto, unfolding(crate::specs::Step::update_rotation))]
pub fn update_rotation(dt: f32, contact: bool, chassis: Body, w: Wheel) -> Wheel
    ensures { result ≡ update_rotation binary32 dt contact chassis w }
{
    if contact {
        spun_by(contact_spin(dt, chassis, w), w)
    } else {
        spun_by(w.motion.spin, w)
    }
}
