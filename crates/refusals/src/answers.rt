// The tests of every ray answer of a drive: refusals 6, 2 and 12.
ghost use Rattle.std.specs.Prelude.{◌≡◌, length};
ghost use Rattle.std.specs.Float.{binary32};
ghost use Rattle.wheel.specs.Ray.{answer_at};
ghost use Rattle.refusals.specs.Handed.{answers_ok, all_normals_handed};
ghost use Rattle.refusals.specs.Normals.{all_normals_ok};

use super::{handed, normals};
use wheel::RayAnswer;

// Refusal 6, with so many bodies in the list.
pub fn are_answers_ok(bodies: u32, answers: &[RayAnswer]) -> bool
    ensures { result ≡ answers_ok bodies (answer_at answers.now) (length answers.now) }
{
    answers.iter().all(|a| handed::is_answer_ok(bodies, *a))
}

// Refusal 2.
pub fn are_all_normals_handed(answers: &[RayAnswer]) -> bool
    ensures { result ≡ all_normals_handed (answer_at answers.now) (length answers.now) }
{
    answers.iter().all(|a| handed::are_normals_handed(*a))
}

// Refusal 12.
pub fn are_all_normals_ok(answers: &[RayAnswer]) -> bool
    ensures { result ≡ all_normals_ok binary32 (answer_at answers.now) (length answers.now) }
{
    answers.iter().all(|a| normals::are_normals_ok(*a))
}
