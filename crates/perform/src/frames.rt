// The calls of a frame, made from the words of their codes: aim, drive. Each answers how many results it has.
ghost use Rattle.std.specs.Prelude.{◌≡◌};
ghost use Rattle.refusals.specs.After.{after};
ghost use Rattle.refusals.specs.Refused.{replied};
ghost use Rattle.drive.specs.Drive.{drive_reply, not_driven, drive_of};
ghost use Rattle.scenario.specs.Format.{format};
ghost use Rattle.perform.specs.Call.{frame_from, answers_of, aim_call, drive_call, Counted, Performs};

use super::Car;
use drive::Driven;
use grammar::layout::CODE_WORDS;
use ground::Frame;
use lines::layout::RESULTS;
use refusals::Refusal;
use scenario::decode;
use table::layout;
use table::layout::COUNT;

// The numbers of as many bodies as a drive may have.
const BODY_NUMBERS: usize = layout::BODIES * layout::BODY;

// Aims with the chassis of the words; if accepted, the speed and the rays go into the results.
pub fn call_aim(
    words: &[u32; CODE_WORDS],
    car: &mut Car,
    results: &mut [u32; RESULTS],
) -> Result<usize, Refusal>
    ensures { Performs (aim_call format words.now car.old.table car.old.whole) result results.old results.new car.new }
{
    let c = decode::chassis_from(words);
    let n = car.whole[COUNT];
    let r = aim::aim(&mut car.table, &mut car.whole, c)?;
    Ok(replies::put_aimed(results, n as usize, r))
}

// Drives with the frame of the words.
fn drive_frame(words: &[u32; CODE_WORDS], car: &mut Car) -> Result<Driven, Refusal>
    requires { Counted words.now }
    ensures { after (replied drive_reply not_driven result) car.new.table car.new.whole ≡ drive_of format car.old.table car.old.whole (frame_from format words.now) (answers_of words.now) }
{
    let nb = frame_words::body_count_from(words) as usize;
    let na = frame_words::answer_count_from(words, nb) as usize;
    let mut bodies = [0.0; BODY_NUMBERS];
    frame_words::decode_bodies(words, nb, &mut bodies);
    let mut flags = [false; layout::BODIES];
    frame_words::decode_flags(words, nb, &mut flags);
    let answers = frame_words::decode_answers(words, frame_words::answers_start(nb), na);
    let e = nb * layout::BODY;
    let frame = Frame {
        dt: frame_words::step_from(words),
        bodies: &bodies[..e],
        dynamic: &flags[..nb],
        answers: &answers[..na],
    };
    drive::advance::drive(&mut car.table, &mut car.whole, frame)
}

// Drives with the frame of the words; if accepted, the velocities and the wake flag go into the results.
pub fn call_drive(
    words: &[u32; CODE_WORDS],
    car: &mut Car,
    results: &mut [u32; RESULTS],
) -> Result<usize, Refusal>
    requires { Counted words.now }
    ensures { Performs (drive_call format words.now car.old.table car.old.whole) result results.old results.new car.new }
{
    let r = drive_frame(words, car)?;
    Ok(replies::put_driven(results, r))
}
