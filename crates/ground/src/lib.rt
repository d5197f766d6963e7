// What a drive is given, and what its ray answers say: which wheels are grounded, how many, and on what.
#![tactic(auto)]

ghost use Rattle.std.specs.Prelude.{◌≡◌, ◌<◌, ◌≤◌, length};
ghost use Rattle.table.specs.Layout as at;
ghost use Rattle.wheel.specs.Ray.{answer_at, named_of};
ghost use Rattle.ground.specs.Frame.{grounded_wheels, ground_named, ground_under, Grounds, FitTogether};

use body::GroundBody;
use wheel::RayAnswer;

// What a drive is handed: the time step; the ground bodies, 16 numbers each, with a flag for each that says if it is dynamic; and the ray answers, one for each wheel.
#[derive(Clone, Copy)]
pub struct Frame<'a> {
    pub dt: f32,
    pub bodies: &'a [f32],
    pub dynamic: &'a [bool],
    pub answers: &'a [RayAnswer],
}

// Ray answers that a table has wheels for.
#[derive(Clone, Copy)]
pub struct Answers<'a> {
    pub list: &'a [RayAnswer],
    ghost room: { length list.now ≤ at.WHEELS },
}

impl Answers<'_> {
    // How many wheels are grounded.
    pub fn grounded_wheels(self) -> u8
        ensures { result ≡ grounded_wheels (answer_at self.entry.list.now) (length self.entry.list.now) }
    {
        self.list
            .iter()
            .filter(|a| wheel::ray::is_grounded(**a))
            .count() as u8
    }
}

// The ground body of a number, by value; 0 names none.
fn ground_named(bodies: &[f32], dynamic: &[bool], n: u32) -> Option<GroundBody>
    requires { (n ≤ length dynamic.now) × Grounds bodies.now dynamic.now }
    ensures { result ≡ ground_named bodies.now dynamic.now n }
{
    if n == 0 {
        return None;
    }
    let i = (n - 1) as usize;
    Some(GroundBody {
        body: table::rows::get_body(bodies, i),
        dynamic: dynamic[i],
    })
}

// The ground body under a wheel with this answer.
pub fn ground_under(bodies: &[f32], dynamic: &[bool], answer: RayAnswer) -> Option<GroundBody>
    requires { (named_of answer ≤ length dynamic.now) × Grounds bodies.now dynamic.now }
    ensures { result ≡ ground_under bodies.now dynamic.now answer }
{
    ground_named(bodies, dynamic, wheel::ray::named_of(answer))
}

// A frame whose lists fit together (refusal 6): a drive goes on with no other.
#[derive(Clone, Copy)]
pub struct Listed<'a> {
    pub frame: Frame<'a>,
    ghost room: { length frame.answers.now ≤ at.WHEELS },
    ghost fit: { FitTogether frame.bodies.now frame.dynamic.now (answer_at frame.answers.now) (length frame.answers.now) },
}

impl Listed<'_> {
    // How many wheels are grounded.
    pub fn grounded_wheels(self) -> u8
        ensures { result ≡ grounded_wheels (answer_at self.entry.frame.answers.now) (length self.entry.frame.answers.now) }
    {
        let answers = Answers {
            list: self.frame.answers,
        };
        answers.grounded_wheels()
    }

    // The ground body under wheel i.
    pub fn ground_under(self, i: usize) -> Option<GroundBody>
        requires { i < length self.frame.answers.now }
        ensures { result ≡ ground_under self.entry.frame.bodies.now self.entry.frame.dynamic.now (answer_at self.entry.frame.answers.now i) }
    {
        let f = self.frame;
        ground_under(f.bodies, f.dynamic, f.answers[i])
    }
}
