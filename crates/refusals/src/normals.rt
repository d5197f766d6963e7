// Refusal 12: normals of the wrong length.
ghost use Rattle.std.specs.Prelude.{◌≡◌};
ghost use Rattle.std.specs.Float.{binary32};
ghost use Rattle.refusals.specs.Normals.{normal_ok, hit_normal_ok, normals_ok};

use vector::Vector;
use wheel::RayAnswer;

fn is_normal_ok(v: Vector) -> bool
    ensures { result ≡ normal_ok binary32 v }
{
    ranges::is_in_band(vector::dot(v, v))
}

// A ray that starts inside the ground gives the zero normal at time 0, and rule 3 takes another for it.
fn is_hit_normal_ok(time: f32, normal: Vector) -> bool
    ensures { result ≡ hit_normal_ok binary32 time normal }
{
    if wheel::ray::is_undefined(time, normal) {
        return true;
    }
    is_normal_ok(normal)
}

// Refusal 12, of an answer's normals.
pub fn are_normals_ok(answer: RayAnswer) -> bool
    ensures { result ≡ normals_ok binary32 answer }
{
    match answer {
        RayAnswer::Nothing => true,
        RayAnswer::Hit(time, normal, _) => is_hit_normal_ok(time, normal),
        RayAnswer::HitUp(time, normal, upward, _) => {
            if !is_hit_normal_ok(time, normal) {
                return false;
            }
            is_normal_ok(upward)
        }
    }
}
