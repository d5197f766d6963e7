// Where one wheel is, and what its ray met: document 01, rules 1 and 3 to 5. `tuning` is the one that counts in the step.
ghost use Rattle.std.specs.Prelude.{◌≡◌};
ghost use Rattle.std.specs.Float.{binary32};
ghost use Rattle.wheel.specs.Ray.{centre_of, settled_centre, update_wheel_transform, ray_of, is_zero, upward_normal, is_undefined, contact_normal, hit_of, miss_of, ray_cast, is_grounded, named_of};

use super::{Place, RayAnswer, RayCastInfo, Steering, Wheel, steer};
use body::Body;
use tyre::{Approach, WheelTuning, suspension};
use vector::{Pose, Vector};

// Rule 1: the centre of a wheel at this length from its hard point.
#[tactic(auto, unfolding(crate::specs::Ray::centre_of))]
fn centre_of(hard: Vector, direction: Vector, length: f32) -> Vector
    ensures { result ≡ centre_of binary32 hard direction length }
{
    vector::add(hard, vector::scale(direction, length))
}

// Change request 2026-02: where the tyre of a driven wheel is drawn, at this drive's length.
#[tactic(auto, unfolding(crate::specs::Ray::settled_centre))]
pub fn settled_centre(w: Wheel) -> Vector
    ensures { result ≡ settled_centre binary32 w }
{
    centre_of(w.info.hard, w.place.direction, w.info.length)
}

// Rule 1: the wheel under the chassis' pose. The centre still has the length of the drive before.
#[tactic(auto, unfolding(crate::specs::Ray::update_wheel_transform))]
pub fn update_wheel_transform(pose: Pose, w: Wheel) -> Wheel
    ensures { result ≡ update_wheel_transform binary32 pose w }
{
    let q = pose.rotation;
    let hard = vector::transform_point(pose, w.settings.connection);
    let direction = vector::rotate(q, w.settings.direction);
    let steered = steer::steering_rotation(direction, Steering::from(w.controls.steering));
    let axle = vector::rotate(steered, vector::rotate(q, w.settings.axle));
    let centre = centre_of(hard, direction, w.info.length);
    Wheel {
        info: RayCastInfo { hard, ..w.info },
        place: Place {
            centre,
            direction,
            axle,
        },
        ..w
    }
}

// Rule 3: the ray, from the hard point.
#[tactic(auto, unfolding(crate::specs::Ray::ray_of))]
pub fn ray_of(w: Wheel) -> Vector
    ensures { result ≡ ray_of binary32 w }
{
    vector::scale(w.place.direction, w.settings.rest + w.settings.radius)
}

#[tactic(auto, unfolding(crate::specs::Ray::is_zero))]
fn is_zero(v: Vector) -> bool
    ensures { result ≡ is_zero v }
{
    v.x == 0.0 && v.y == 0.0 && v.z == 0.0
}

// Rule 3: a hit at time 0 takes minus the upward normal.
#[tactic(auto, unfolding(crate::specs::Ray::upward_normal))]
fn upward_normal(time: f32, normal: Vector, upward: Vector) -> Vector
    ensures { result ≡ upward_normal time normal upward }
{
    if time == 0.0 {
        vector::neg(upward)
    } else {
        normal
    }
}

// Rule 3: whether a hit has no normal of its own.
#[tactic(auto, unfolding(crate::specs::Ray::is_undefined))]
pub fn is_undefined(time: f32, normal: Vector) -> bool
    ensures { result ≡ is_undefined time normal }
{
    time == 0.0 && is_zero(normal)
}

// Rule 3: a zero normal at time 0 becomes minus the direction.
#[tactic(auto, unfolding(crate::specs::Ray::contact_normal))]
fn contact_normal(time: f32, normal: Vector, direction: Vector) -> Vector
    ensures { result ≡ contact_normal time normal direction }
{
    if is_undefined(time, normal) {
        vector::neg(direction)
    } else {
        normal
    }
}

// Rule 4: the wheel after a hit.
#[tactic(auto, unfolding(crate::specs::Ray::hit_of))]
fn hit_of(tuning: WheelTuning, chassis: Body, time: f32, normal: Vector, w: Wheel) -> Wheel
    ensures { result ≡ hit_of binary32 tuning chassis time normal w }
{
    let hard = w.info.hard;
    let point = vector::add(hard, vector::scale(ray_of(w), time));
    let length = suspension::suspension_length(
        w.settings.rest,
        tuning.travel,
        w.settings.radius,
        time,
    );
    let facing = vector::dot(normal, w.place.direction);
    let speed = vector::dot(normal, body::velocity_at_point(chassis, point));
    let info = RayCastInfo {
        normal,
        point,
        length,
        hard,
    };
    let approach = suspension::approach_of(facing, speed);
    Wheel {
        info,
        approach,
        ..w
    }
}

// Rule 5: the wheel where nothing was hit.
#[tactic(auto, unfolding(crate::specs::Ray::miss_of))]
fn miss_of(w: Wheel) -> Wheel
    ensures { result ≡ miss_of binary32 w }
{
    let hard = w.info.hard;
    let normal = vector::neg(w.place.direction);
    let point = vector::add(hard, ray_of(w));
    let info = RayCastInfo {
        normal,
        point,
        length: w.settings.rest,
        hard,
    };
    let approach = Approach {
        velocity: 0.0,
        inverse: 1.0,
    };
    Wheel {
        info,
        approach,
        ..w
    }
}

// The wheel once its ray answer is in.
#[tactic(auto, unfolding(crate::specs::Ray::ray_cast))]
pub fn ray_cast(tuning: WheelTuning, chassis: Body, answer: RayAnswer, w: Wheel) -> Wheel
    ensures { result ≡ ray_cast binary32 tuning chassis answer w }
{
    match answer {
        RayAnswer::Nothing => miss_of(w),
        RayAnswer::Hit(time, normal, _) => hit_of(
            tuning,
            chassis,
            time,
            contact_normal(time, normal, w.place.direction),
            w,
        ),
        RayAnswer::HitUp(time, normal, upward, _) => {
            let turned = upward_normal(time, normal, upward);
            hit_of(
                tuning,
                chassis,
                time,
                contact_normal(time, turned, w.place.direction),
                w,
            )
        }
    }
}

// Every hit grounds its wheel.
#[tactic(auto, unfolding(crate::specs::Ray::is_grounded))]
pub fn is_grounded(answer: RayAnswer) -> bool
    ensures { result ≡ is_grounded answer }
{
    !matches!(answer, RayAnswer::Nothing)
}

// The number that an answer names its ground body by; 0 for none.
#[tactic(auto, unfolding(crate::specs::Ray::named_of))]
pub fn named_of(answer: RayAnswer) -> u32
    ensures { result ≡ named_of answer }
{
    match answer {
        RayAnswer::Nothing => 0,
        RayAnswer::Hit(_, _, n) => n,
        RayAnswer::HitUp(_, _, _, n) => n,
    }
}
