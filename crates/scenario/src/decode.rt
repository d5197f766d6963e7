// The fields of a scenario code, read from its words.
ghost use Rattle.std.specs.Prelude.{◌≡◌, ◌+◌, ◌<◌, ◌≤◌, length};
ghost use Rattle.scenario.specs.Format.{format};
ghost use Rattle.scenario.specs.Decode.{float_from, floats_from, vector_from, rolled_from, settings_from, wheel_from, controls_from, controls_by_angle_from, chassis_from};

use super::bits;
use super::layout::*;
use body::Chassis;
use grammar::layout::CODE_WORDS;
use table::{layout, parts, rows};
use vector::Vector;
use wheel::{Controls, ROLL_INFLUENCE, Settings};

// The float that stands at a.
#[tactic(auto, unfolding(crate::specs::Decode::float_from))]
pub fn float_from(words: &[u32], a: usize) -> f32
    requires { a < length words.now }
    ensures { result ≡ float_from format words.now a }
{
    let bits = words[a];
    bits::float_of(bits)
}

#[tactic(auto, unfolding(crate::specs::Decode::vector_from))]
pub fn vector_from(words: &[u32], a: usize) -> Vector
    requires { a + 2 < length words.now }
    ensures { result ≡ vector_from format words.now a }
{
    let x = float_from(words, a);
    let y = float_from(words, a + 1);
    let z = float_from(words, a + 2);
    Vector { x, y, z }
}

// Fills the lent numbers with the floats from a on.
fn floats_from(words: &[u32], a: usize, numbers: &mut [f32])
    requires { a + length numbers.old ≤ length words.now }
    ensures { numbers.new ≡ floats_from format words.now a (length numbers.old) }
{
    for (i, x) in numbers.iter_mut().enumerate() {
        *x = float_from(words, a + i);
    }
}

// The settings of an add that has the roll influence last.
#[tactic(auto, unfolding(crate::specs::Decode::rolled_from))]
pub fn rolled_from(words: &[u32; CODE_WORDS]) -> Settings
    ensures { result ≡ rolled_from format words.now }
{
    let mut numbers = [0.0; layout::SETTINGS];
    floats_from(words, FIRST, &mut numbers);
    parts::settings_at(&numbers, 0)
}

// The settings of an add that has none: its roll influence is the source's.
pub fn settings_from(words: &[u32; CODE_WORDS]) -> Settings
    ensures { result ≡ settings_from format words.now }
{
    let mut s = rolled_from(words);
    s.roll = ROLL_INFLUENCE;
    s
}

// The wheel that controls or a read names.
#[tactic(auto, unfolding(crate::specs::Decode::wheel_from, crate::specs::Decode::number_from))]
pub fn wheel_from(words: &[u32; CODE_WORDS]) -> u32
    ensures { result ≡ wheel_from words.now }
{
    words[WHEEL]
}

#[tactic(auto, unfolding(crate::specs::Decode::controls_from))]
pub fn controls_from(words: &[u32; CODE_WORDS]) -> Controls
    ensures { result ≡ controls_from format words.now }
{
    let mut numbers = [0.0; layout::BY_ROTATION];
    floats_from(words, CONTROLS, &mut numbers);
    parts::by_rotation_at(&numbers, 0)
}

// The controls of a code that has an angle in place of the rotation.
#[tactic(auto, unfolding(crate::specs::Decode::controls_by_angle_from))]
pub fn controls_by_angle_from(words: &[u32; CODE_WORDS]) -> Controls
    ensures { result ≡ controls_by_angle_from format words.now }
{
    let mut numbers = [0.0; layout::BY_ANGLE];
    floats_from(words, CONTROLS, &mut numbers);
    parts::by_angle_at(&numbers, 0)
}

// The chassis of an aim.
#[tactic(auto, unfolding(crate::specs::Decode::chassis_from))]
pub fn chassis_from(words: &[u32; CODE_WORDS]) -> Chassis
    ensures { result ≡ chassis_from format words.now }
{
    let mut numbers = [0.0; layout::KEPT];
    floats_from(words, FIRST, &mut numbers);
    rows::read_chassis(&numbers)
}
