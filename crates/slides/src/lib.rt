// Rule 8's rescale over a lent slice of small records (forward, side, skid). The records of a table's wheels are gathered, lent, and written back into their rows.
#![tactic(auto)]

ghost use Rattle.std.specs.Prelude.{◌≡◌, ◌≤◌, map};
ghost use Rattle.std.specs.Float.{binary32};
ghost use Rattle.tyre.specs.Grip.{rescaled_of};
ghost use Rattle.table.specs.Layout as at;
ghost use Rattle.passes.specs.Passes.{rescales};
ghost use Rattle.slides.specs.Slides.{gathered, rescaled_first, scattered};

use table::layout::{SIZE, WHEELS};
use tyre::Friction;

// Each record after the rescale.
#[tactic(auto, using(crate::proofs::Each::up_to_all))]
fn rescale(slides: &mut [Friction])
    ensures { slides.new ≡ map (rescaled_of binary32) slides.old }
{
    for s in slides.iter_mut() {
        if s.skid < 1.0 {
            s.forward *= s.skid;
            s.side *= s.skid;
        }
    }
}

// The first n records after the rescale, the others as they are: those n are lent.
#[tactic(auto, unfolding(crate::specs::Slides::rescaled_first))]
fn rescale_first(slides: [Friction; WHEELS], n: usize) -> [Friction; WHEELS]
    requires { n ≤ at.WHEELS }
    ensures { result ≡ rescaled_first binary32 n slides }
{
    let mut lent = slides;
    rescale(&mut lent[..n]);
    lent
}

// The records of the first n wheels; those of a wheel in the air after them.
#[tactic(auto, using(passes::proofs::Gives::giving), unfolding(passes::specs::Passes::given, passes::specs::Passes::each_gives, crate::specs::Slides::gathered))]
fn gather(table: &[f32; SIZE], n: usize) -> [Friction; WHEELS]
    requires { n ≤ at.WHEELS }
    ensures { result ≡ gathered n table.now }
{
    let airborne = tyre::grip::airborne();
    let mut slides = [airborne; WHEELS];
    for i in 0..n {
        slides[i] = table::rows::get_friction(table, i);
    }
    slides
}

// The table with the first n records in the rows of the first n wheels.
#[tactic(auto, using(passes::proofs::Laws::passing), unfolding(passes::specs::Passes::changed, crate::specs::Slides::slide_over, crate::specs::Slides::scattered))]
fn scatter(table: &mut [f32; SIZE], n: usize, slides: &[Friction; WHEELS])
    requires { n ≤ at.WHEELS }
    ensures { table.new ≡ scattered slides.now n table.old }
{
    for i in 0..n {
        let s = slides[i];
        table::rows::put(table, i, s);
    }
}

// Rule 8, the rescale of the first n wheels.
#[tactic(auto, using(crate::proofs::Gathers::scattered_is_pass))]
pub fn rescale_pass(table: &mut [f32; SIZE], n: usize)
    requires { n ≤ at.WHEELS }
    ensures { table.new ≡ rescales binary32 n table.old }
{
    let demanded = gather(table, n);
    let slides = rescale_first(demanded, n);
    scatter(table, n, &slides);
}
