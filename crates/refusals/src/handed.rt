// Refusals 2 and 6: the numbers that a call is handed, and the ray answers of a drive.
ghost use Rattle.std.specs.Prelude.{◌≡◌};
ghost use Rattle.refusals.specs.Handed.{settings_handed, controls_handed, chassis_handed, vector_handed, normals_handed, hit_ok, answer_ok};

use body::Chassis;
use table::bounds::HANDED;
use vector::Vector;
use wheel::{Controls, RayAnswer, Settings, Steering};

pub fn are_settings_handed(s: Settings) -> bool
    ensures { result ≡ settings_handed s }
{
    let numbers = table::parts::settings_numbers(s);
    table::bounds::all_within(HANDED, &numbers)
}

pub fn are_controls_handed(c: Controls) -> bool
    ensures { result ≡ controls_handed c }
{
    let s = c.steering;
    match s {
        Steering::ByRotation(q) => {
            let numbers = [c.engine, c.brake, q.b.x, q.b.y, q.b.z, q.w];
            table::bounds::all_within(HANDED, &numbers)
        }
        Steering::ByAngle(angle) => {
            let numbers = [c.engine, c.brake, angle];
            table::bounds::all_within(HANDED, &numbers)
        }
    }
}

pub fn is_chassis_handed(c: Chassis) -> bool
    ensures { result ≡ chassis_handed c }
{
    let numbers = table::rows::chassis_numbers(c);
    table::bounds::all_within(HANDED, &numbers)
}

fn is_vector_handed(v: Vector) -> bool
    ensures { result ≡ vector_handed v }
{
    let numbers = [v.x, v.y, v.z];
    table::bounds::all_within(HANDED, &numbers)
}

// Refusal 2, of an answer's normals.
pub fn are_normals_handed(answer: RayAnswer) -> bool
    ensures { result ≡ normals_handed answer }
{
    match answer {
        RayAnswer::Nothing => true,
        RayAnswer::Hit(_, normal, _) => is_vector_handed(normal),
        RayAnswer::HitUp(_, normal, upward, _) => {
            if !is_vector_handed(normal) {
                return false;
            }
            is_vector_handed(upward)
        }
    }
}

// Refusal 6, of one answer, with so many bodies in the list.
pub fn is_answer_ok(bodies: u32, answer: RayAnswer) -> bool
    ensures { result ≡ answer_ok bodies answer }
{
    match answer {
        RayAnswer::Nothing => true,
        RayAnswer::Hit(time, _, named) => is_hit_ok(bodies, time, named),
        RayAnswer::HitUp(time, _, _, named) => is_hit_ok(bodies, time, named),
    }
}

fn is_hit_ok(bodies: u32, time: f32, named: u32) -> bool
    ensures { result ≡ hit_ok bodies time named }
{
    if !ranges::is_in_unit(time) {
        return false;
    }
    named <= bodies
}
