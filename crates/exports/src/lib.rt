// The functions that a host links: `rt lib` in this folder puts them into one archive. They are the six calls on
// numbers and flat lists, set controls in two forms; a list is a pointer and a length. Each is total on every length and every number, answers the refusal number of its
// call, and refuses with 1, before all else, a list of settings, controls, chassis or results of the wrong length. Results are written only
// where the answer is 0.
#![tactic(auto)]

ghost use Rattle.std.specs.Prelude.{◌≡◌, true, length};
ghost use Rattle.std.specs.Float.{binary32};
ghost use Rattle.real.specs.Root.{root_of};
ghost use Rattle.angle.specs.Angle.{sine_of, cosine_of};
ghost use Rattle.refusals.specs.After.{after};
ghost use Rattle.refusals.specs.Refused.{replied};
ghost use Rattle.table.specs.Layout as lent;
ghost use Rattle.set_up.specs.SetUp.{set_up};
ghost use Rattle.read_wheel.specs.Read as read;
ghost use Rattle.drive.specs.Drive.{drive_reply, not_driven, drive_of};
ghost use Rattle.flat_in.specs.Lists.{lists_fit, frame_in};
ghost use Rattle.flat_out.specs.Layout as at;
ghost use Rattle.flat_in.specs.Layout as rays;
ghost use Rattle.flat_out.specs.Ends.{flat};
ghost use Rattle.exports.specs.Calls.{flat_add, flat_controls, flat_controls_by_angle, flat_read, flat_aim, flat_drive};

use drive::Driven;
use ground::Frame;
use read_wheel::ALL;
use refusals::Refusal;
use table::layout as lent;

// The square root of x, correctly rounded. A NaN, and a number below zero, give a NaN.
#[unsafe(no_mangle)]
pub extern "C" fn vehicle_root(x: f32) -> f32
    ensures { result ≡ root_of binary32 x }
{
    real::root::root(x)
}

// The sine of half a steering angle, which is from -1 to 1. Any other number is half of none, and gives itself.
#[unsafe(no_mangle)]
pub extern "C" fn vehicle_sine(half: f32) -> f32
    ensures { result ≡ sine_of binary32 half }
{
    let turn = angle::sine_cosine(half);
    turn.sine
}

// Its cosine. Any other number gives 1.
#[unsafe(no_mangle)]
pub extern "C" fn vehicle_cosine(half: f32) -> f32
    ensures { result ≡ cosine_of binary32 half }
{
    let turn = angle::sine_cosine(half);
    turn.cosine
}

// Makes the lent numbers a vehicle with no wheels: `set_up::set_up`.
// Takes: the table, vehicle_table_len numbers, and the whole numbers, vehicle_whole_len, of any contents; the up and the forward axis.
#[unsafe(no_mangle)]
pub extern "C" fn vehicle_set_up(table: &mut [f32], whole: &mut [u32], up: u32, forward: u32) -> u32
    ensures { after result table.new whole.new ≡ set_up table.old whole.old up forward }
{
    refusals::answer_number(&set_up::set_up(table, whole, up, forward))
}

// Adds a wheel: `add_wheel::add_wheel`.
// Takes: a vehicle; the settings, vehicle_settings_len numbers: connection point, direction and axle; rest length and radius; stiffness,
// compression, damping, travel, side friction stiffness, friction slip, maximum force; roll influence.
#[unsafe(no_mangle)]
pub extern "C" fn vehicle_add_wheel(table: &mut [f32], whole: &mut [u32], settings: &[f32]) -> u32
    ensures { after result table.new whole.new ≡ flat_add table.old whole.old settings.now }
{
    if settings.len() != lent::SETTINGS {
        return Refusal::NoVehicle.number();
    }
    let s = table::parts::settings_at(settings, 0);
    refusals::answer_number(&add_wheel::add_wheel(table, whole, s))
}

// Sets the controls of one wheel, steered by a rotation: `set_controls::set_controls`.
// Takes: a vehicle; the wheel's number; the controls, vehicle_controls_len numbers: engine force, brake, and the steering's x, y, z, w.
#[unsafe(no_mangle)]
pub extern "C" fn vehicle_set_controls(
    table: &mut [f32],
    whole: &mut [u32],
    wheel: u32,
    controls: &[f32],
) -> u32
    ensures { after result table.new whole.new ≡ flat_controls binary32 table.old whole.old wheel controls.now }
{
    if controls.len() != lent::BY_ROTATION {
        return Refusal::NoVehicle.number();
    }
    let c = table::parts::by_rotation_at(controls, 0);
    refusals::answer_number(&set_controls::set_controls(table, whole, wheel, c))
}

// Sets the controls of one wheel, steered by an angle: `set_controls::set_controls`.
// Takes: a vehicle; the wheel's number; the controls, vehicle_controls_by_angle_len numbers: engine force, brake, and the angle.
#[unsafe(no_mangle)]
pub extern "C" fn vehicle_set_controls_by_angle(
    table: &mut [f32],
    whole: &mut [u32],
    wheel: u32,
    controls: &[f32],
) -> u32
    ensures { after result table.new whole.new ≡ flat_controls_by_angle binary32 table.old whole.old wheel controls.now }
{
    if controls.len() != lent::BY_ANGLE {
        return Refusal::NoVehicle.number();
    }
    let c = table::parts::by_angle_at(controls, 0);
    refusals::answer_number(&set_controls::set_controls(table, whole, wheel, c))
}

// Takes the chassis and writes what the host casts: `aim::aim`.
// Takes: a vehicle; the chassis, vehicle_chassis_len numbers in the order in which the table keeps it.
// Results, vehicle_aim_len numbers: the signed speed, then for each of the 16 wheels its hard point and its ray, zeros where there is none.
#[unsafe(no_mangle)]
pub extern "C" fn vehicle_aim(
    table: &mut [f32],
    whole: &mut [u32],
    chassis: &[f32],
    results: &mut [f32],
) -> u32
    ensures { after (flat result results.new) table.new whole.new ≡ flat_aim binary32 table.old whole.old chassis.now results.old }
{
    if chassis.len() != lent::KEPT {
        return Refusal::NoVehicle.number();
    }
    if results.len() != flat_out::layout::AIM {
        return Refusal::NoVehicle.number();
    }
    let c = table::rows::read_chassis(chassis);
    let answer = aim::aim(table, whole, c);
    flat_out::put_aimed(results, answer);
    refusals::answer_number(&answer)
}

// The drive on lists that fit together.
fn drive_lists(
    table: &mut [f32],
    whole: &mut [u32],
    dt: f32,
    bodies: &[f32],
    dynamic: &[u32],
    kinds: &[u32],
    named: &[u32],
    rays: &[f32],
) -> Result<Driven, Refusal>
    requires { lists_fit dynamic.now kinds.now named.now rays.now ≡ true }
    ensures { after (replied drive_reply not_driven result) table.new whole.new ≡ drive_of binary32 table.old whole.old (frame_in dt bodies.now dynamic.now kinds.now named.now rays.now) (length kinds.now) }
{
    let flags = flat_in::decode_flags(dynamic);
    let answers = flat_in::decode_answers(kinds, named, rays);
    let frame = Frame {
        dt,
        bodies,
        dynamic: &flags[..dynamic.len()],
        answers: &answers[..kinds.len()],
    };
    drive::advance::drive(table, whole, frame)
}

// Drives the vehicle by one step: `drive::advance::drive`. Lists that do not fit together are refusal 6.
// Takes: an aimed vehicle; the time step; the ground bodies, vehicle_body_len numbers each, with a flag for each, 1 dynamic or 0; and for each
// wheel the kind of its ray answer (0 nothing, 1 a hit, 2 a hit with the upward normal), the number of the body that it names (0 none, n body
// n - 1) and vehicle_ray_len numbers of its ray (time, normal, upward normal), of which a kind reads only its own.
// Results, vehicle_drive_len numbers: the chassis' linear and angular velocity, and 1 where it is to be woken, else 0.
#[unsafe(no_mangle)]
pub extern "C" fn vehicle_drive(
    table: &mut [f32],
    whole: &mut [u32],
    dt: f32,
    bodies: &[f32],
    dynamic: &[u32],
    kinds: &[u32],
    named: &[u32],
    rays: &[f32],
    results: &mut [f32],
) -> u32
    ensures { after (flat result results.new) table.new whole.new ≡ flat_drive binary32 table.old whole.old dt bodies.now dynamic.now kinds.now named.now rays.now results.old }
{
    if results.len() != flat_out::layout::DRIVE {
        return Refusal::NoVehicle.number();
    }
    if let Err(r) = flat_in::refuse_lists(table, whole, dynamic, kinds, named, rays) {
        return r.number();
    }
    let answer = drive_lists(table, whole, dt, bodies, dynamic, kinds, named, rays);
    flat_out::put_driven(results, answer);
    refusals::answer_number(&answer)
}

// Reads one wheel after a drive: `read_wheel::read_wheel`.
// Takes: a vehicle; the wheel's number.
// Results, vehicle_read_len numbers: centre, world direction, world axle, suspension length, force, forward and side impulse, skid, rotation,
// the settled centre, where the tyre is drawn, and 1 or 0 each: whether rule 7's axis and its forward direction fell back to zero.
#[unsafe(no_mangle)]
pub extern "C" fn vehicle_read_wheel(
    table: &[f32],
    whole: &[u32],
    wheel: u32,
    results: &mut [f32],
) -> u32
    ensures { after (flat result results.new) table.now whole.now ≡ flat_read binary32 table.now whole.now wheel results.old }
{
    if results.len() != ALL {
        return Refusal::NoVehicle.number();
    }
    let answer = read_wheel::read_wheel(table, whole, wheel);
    flat_out::put_reading(results, answer);
    refusals::answer_number(&answer)
}

// How many numbers a vehicle's table has.
#[unsafe(no_mangle)]
pub extern "C" fn vehicle_table_len() -> u32
    ensures { result ≡ lent.SIZE }
{
    lent::SIZE as u32
}

// How many whole numbers stand beside it.
#[unsafe(no_mangle)]
pub extern "C" fn vehicle_whole_len() -> u32
    ensures { result ≡ lent.WHOLE }
{
    lent::WHOLE as u32
}

// How many numbers the settings of a wheel are.
#[unsafe(no_mangle)]
pub extern "C" fn vehicle_settings_len() -> u32
    ensures { result ≡ lent.SETTINGS }
{
    lent::SETTINGS as u32
}

// How many numbers the controls of a wheel are, as they are handed in with a rotation.
#[unsafe(no_mangle)]
pub extern "C" fn vehicle_controls_len() -> u32
    ensures { result ≡ lent.BY-ROTATION }
{
    lent::BY_ROTATION as u32
}

// How many they are with an angle.
#[unsafe(no_mangle)]
pub extern "C" fn vehicle_controls_by_angle_len() -> u32
    ensures { result ≡ lent.BY-ANGLE }
{
    lent::BY_ANGLE as u32
}

// How many numbers a chassis is.
#[unsafe(no_mangle)]
pub extern "C" fn vehicle_chassis_len() -> u32
    ensures { result ≡ lent.KEPT }
{
    lent::KEPT as u32
}

// How many numbers a ground body is.
#[unsafe(no_mangle)]
pub extern "C" fn vehicle_body_len() -> u32
    ensures { result ≡ lent.BODY }
{
    lent::BODY as u32
}

// How many numbers a ray answer is.
#[unsafe(no_mangle)]
pub extern "C" fn vehicle_ray_len() -> u32
    ensures { result ≡ rays.RAY }
{
    flat_in::layout::RAY as u32
}

// How many numbers an aim writes.
#[unsafe(no_mangle)]
pub extern "C" fn vehicle_aim_len() -> u32
    ensures { result ≡ at.AIM }
{
    flat_out::layout::AIM as u32
}

// How many numbers a drive writes.
#[unsafe(no_mangle)]
pub extern "C" fn vehicle_drive_len() -> u32
    ensures { result ≡ at.DRIVE }
{
    flat_out::layout::DRIVE as u32
}

// How many numbers a read writes.
#[unsafe(no_mangle)]
pub extern "C" fn vehicle_read_len() -> u32
    ensures { result ≡ read.ALL }
{
    ALL as u32
}
