// One grounded tyre and the bodies that it stands between: document 01, rule 7.
ghost use Rattle.std.specs.Prelude.{◌≡◌};
ghost use Rattle.std.specs.Float.{binary32};
ghost use Rattle.road.specs.Contact.{contact_axis, contact_forward, directions_of, fallbacks_of, dynamic_ground, relative_velocity, swing_of, jacobian_diagonal, denominators_of};

use body::{Body, GroundBody};
use vector::{Normalized, Vector};
use wheel::{Directions, Fallbacks, Wheel};

// The wheel's axis on the contact plane.
#[tactic(auto, unfolding(crate::specs::Contact::contact_axis))]
fn contact_axis(axle: Vector, normal: Vector) -> Normalized
    ensures { result ≡ contact_axis binary32 axle normal }
{
    vector::normalize_or_zero(vector::sub(axle, vector::scale(normal, vector::dot(axle, normal))))
}

// Its rolling direction there.
#[tactic(auto, unfolding(crate::specs::Contact::contact_forward))]
fn contact_forward(normal: Vector, axis: Vector) -> Normalized
    ensures { result ≡ contact_forward binary32 normal axis }
{
    vector::normalize_or_zero(vector::cross(normal, axis))
}

// Both directions of a wheel.
#[tactic(auto, unfolding(crate::specs::Contact::directions_of))]
pub fn directions_of(w: Wheel) -> Directions
    ensures { result ≡ directions_of binary32 w }
{
    let normal = w.info.normal;
    let axis = contact_axis(w.place.axle, normal);
    let forward = contact_forward(normal, axis.vector);
    Directions { axis, forward }
}

// Change request 2026-05: whether the two fell back to zero, as the row keeps it; both are no for an airborne wheel.
#[tactic(auto, unfolding(crate::specs::Contact::fallbacks_of))]
pub fn fallbacks_of(contact: bool, d: Directions) -> Fallbacks
    ensures { result ≡ fallbacks_of contact d }
{
    if contact {
        Fallbacks {
            axis: real::flag_number(d.axis.fellback),
            forward: real::flag_number(d.forward.fellback),
        }
    } else {
        Fallbacks {
            axis: 0.0,
            forward: 0.0,
        }
    }
}

// The ground as the side demand counts it: a body that is not dynamic is none.
#[tactic(auto, unfolding(crate::specs::Contact::dynamic_ground))]
pub fn dynamic_ground(surface: Option<GroundBody>) -> Option<GroundBody>
    ensures { result ≡ dynamic_ground surface }
{
    surface.filter(|b| b.dynamic)
}

// The chassis' velocity at p less the ground's.
#[tactic(auto, unfolding(crate::specs::Contact::relative_velocity))]
pub fn relative_velocity(chassis: Body, surface: Option<GroundBody>, p: Vector) -> Vector
    ensures { result ≡ relative_velocity binary32 chassis surface p }
{
    let v = body::velocity_at_point(chassis, p);
    match surface {
        None => v,
        Some(b) => vector::sub(v, body::velocity_at_point(b.body, p)),
    }
}

// The square of what a unit impulse along the axis, at p, turns the body by.
#[tactic(auto, unfolding(crate::specs::Contact::swing_of))]
fn swing_of(b: Body, p: Vector, axis: Vector) -> f32
    ensures { result ≡ swing_of binary32 b p axis }
{
    let t = vector::inertia_dot(b.inertia, vector::cross(vector::sub(p, b.centre), axis));
    vector::dot(t, t)
}

// The source's jac_diag_ab: of resolve_single_unilateral, and of resolve_single_bilateral where a body counts.
#[tactic(auto, unfolding(crate::specs::Contact::jacobian_diagonal))]
pub fn jacobian_diagonal(chassis: Body, surface: Option<GroundBody>, p: Vector, axis: Vector) -> f32
    ensures { result ≡ jacobian_diagonal binary32 chassis surface p axis }
{
    match surface {
        None => chassis.invmass + swing_of(chassis, p, axis),
        Some(b) => {
            let under = b.body;
            chassis.invmass + under.invmass + swing_of(chassis, p, axis) + swing_of(under, p, axis)
        }
    }
}

// The sum of the bodies' denominators, along n at p.
#[tactic(auto, unfolding(crate::specs::Contact::denominators_of))]
pub fn denominators_of(chassis: Body, surface: Option<GroundBody>, p: Vector, n: Vector) -> f32
    ensures { result ≡ denominators_of binary32 chassis surface p n }
{
    let own = body::impulse_denominator(chassis, p, n);
    match surface {
        None => own,
        Some(b) => own + body::impulse_denominator(b.body, p, n),
    }
}
