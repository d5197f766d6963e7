// The lists of a drive, read from its words.
#![tactic(auto)]

ghost use Rattle.std.specs.Prelude.{◌≡◌, length, replicate, ◌+◌, ◌*◌, ◌<◌, ◌≤◌};
ghost use Rattle.lists.specs.Part.{paste};
ghost use Rattle.wheel.specs.declared.RayAnswer.TheVariants.{Nothing};
ghost use Rattle.table.specs.Layout as table;
ghost use Rattle.grammar.specs.Layout as code;
ghost use Rattle.scenario.specs.Layout as at;
ghost use Rattle.scenario.specs.Format.{format};
ghost use Rattle.frame_words.specs.Frame.{step_from, body_count_from, body_start, body_number_from, bodies_from, flag_from, flags_from, answer_count_from, answers_start, hit_from, hit_up_from, answer_from, answer_words, answers_from};

use grammar::Kind;
use grammar::layout::{CODE_WORDS, DYNAMIC};
use scenario::decode;
use scenario::layout::*;
use table::layout::{BODY, WHEELS};
use wheel::RayAnswer;

#[tactic(auto, unfolding(crate::specs::Frame::step_from))]
pub fn step_from(words: &[u32; CODE_WORDS]) -> f32
    ensures { result ≡ step_from format words.now }
{
    decode::float_from(words, STEP)
}

#[tactic(auto, unfolding(crate::specs::Frame::body_count_from, scenario::specs::Decode::number_from))]
pub fn body_count_from(words: &[u32; CODE_WORDS]) -> u32
    ensures { result ≡ body_count_from words.now }
{
    words[BODY_COUNT]
}

// Where body i starts; with the number of bodies, where the number of answers stands.
fn body_start(i: usize) -> usize
    requires { i ≤ code.BODIES }
    ensures { result ≡ body_start i }
{
    BODIES + i * BODY_WORDS
}

// Number k of the bodies as they are lent.
#[tactic(auto, unfolding(crate::specs::Frame::body_number_from))]
fn body_number_from(words: &[u32; CODE_WORDS], k: usize) -> f32
    requires { k < code.BODIES * table.BODY }
    ensures { result ≡ body_number_from format words.now k }
{
    decode::float_from(words, body_start(k / BODY) + k % BODY)
}

// Whether body i is dynamic.
#[tactic(auto, unfolding(crate::specs::Frame::flag_from, scenario::specs::Decode::number_from))]
fn flag_from(words: &[u32; CODE_WORDS], i: usize) -> bool
    requires { i < code.BODIES }
    ensures { result ≡ flag_from words.now i }
{
    words[body_start(i) + FLAG] == DYNAMIC
}

#[tactic(auto, unfolding(crate::specs::Frame::answer_count_from, scenario::specs::Decode::number_from))]
pub fn answer_count_from(words: &[u32; CODE_WORDS], bodies: usize) -> u32
    requires { bodies ≤ code.BODIES }
    ensures { result ≡ answer_count_from words.now bodies }
{
    words[body_start(bodies)]
}

// Where the answers start behind so many bodies.
pub fn answers_start(bodies: usize) -> usize
    requires { bodies ≤ code.BODIES }
    ensures { result ≡ answers_start bodies }
{
    body_start(bodies) + 1
}

#[tactic(auto, unfolding(crate::specs::Frame::hit_from, scenario::specs::Decode::number_from))]
fn hit_from(words: &[u32; CODE_WORDS], a: usize) -> RayAnswer
    requires { a + at.HIT-WORDS ≤ code.CODE-WORDS }
    ensures { result ≡ hit_from format words.now a }
{
    let time = decode::float_from(words, a + TIME);
    let normal = decode::vector_from(words, a + NORMAL);
    RayAnswer::Hit(time, normal, words[a + HIT_BODY])
}

#[tactic(auto, unfolding(crate::specs::Frame::hit_up_from, scenario::specs::Decode::number_from))]
fn hit_up_from(words: &[u32; CODE_WORDS], a: usize) -> RayAnswer
    requires { a + at.HIT-UP-WORDS ≤ code.CODE-WORDS }
    ensures { result ≡ hit_up_from format words.now a }
{
    let time = decode::float_from(words, a + TIME);
    let normal = decode::vector_from(words, a + NORMAL);
    let upward = decode::vector_from(words, a + UPWARD);
    RayAnswer::HitUp(time, normal, upward, words[a + HIT_UP_BODY])
}

// The answer at a, by its kind.
#[tactic(auto, unfolding(crate::specs::Frame::answer_from, scenario::specs::Decode::number_from, lists::specs::Pick::pick))]
fn answer_from(words: &[u32; CODE_WORDS], a: usize) -> RayAnswer
    requires { a + at.HIT-UP-WORDS ≤ code.CODE-WORDS }
    ensures { result ≡ answer_from format words.now a }
{
    match Kind::try_from(words[a]) {
        Ok(Kind::Hit) => hit_from(words, a),
        Ok(Kind::HitUp) => hit_up_from(words, a),
        _ => RayAnswer::Nothing,
    }
}

// How many words an answer of a kind takes.
#[tactic(auto, unfolding(crate::specs::Frame::answer_words, lists::specs::Pick::pick))]
fn answer_words(kind: u32) -> usize
    ensures { result ≡ answer_words kind }
{
    match Kind::try_from(kind) {
        Ok(Kind::Hit) => HIT_WORDS,
        Ok(Kind::HitUp) => HIT_UP_WORDS,
        _ => 1,
    }
}

// Fills the lent bodies with the numbers of a drive's bodies.
pub fn decode_bodies(words: &[u32; CODE_WORDS], nb: usize, bodies: &mut [f32])
    requires { (nb ≤ code.BODIES) × (nb * table.BODY ≤ length bodies.old) }
    ensures { bodies.new ≡ paste bodies.old 0 (bodies_from format words.now nb) }
{
    for (k, number) in bodies[..nb * BODY].iter_mut().enumerate() {
        *number = body_number_from(words, k);
    }
}

// Fills the lent flags with those of a drive's bodies.
pub fn decode_flags(words: &[u32; CODE_WORDS], nb: usize, flags: &mut [bool])
    requires { (nb ≤ code.BODIES) × (nb ≤ length flags.old) }
    ensures { flags.new ≡ paste flags.old 0 (flags_from words.now nb) }
{
    for (i, flag) in flags[..nb].iter_mut().enumerate() {
        *flag = flag_from(words, i);
    }
}

// A drive's answers from a word on, and nothing for the wheels after them.
pub fn decode_answers(words: &[u32; CODE_WORDS], from: usize, na: usize) -> [RayAnswer; WHEELS]
    requires { (from ≤ at.LAST-ANSWERS) × (na ≤ code.ANSWERS) }
    ensures { result ≡ paste (replicate code.ANSWERS Nothing) 0 (answers_from format words.now from na) }
{
    let mut answers = [RayAnswer::Nothing; WHEELS];
    let mut a = from;
    for i in 0..na {
        answers[i] = answer_from(words, a);
        a += answer_words(words[a]);
    }
    answers
}
