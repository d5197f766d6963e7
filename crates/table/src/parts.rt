// The parts of a wheel as numbers and back: what stands in a list from a place on, the numbers in order, and a row with another part.
ghost use Rattle.std.specs.Prelude.{◌≡◌, ◌+◌, ◌<◌, ◌≤◌, length};
ghost use Rattle.wheel.specs.Parts.{with_info, with_place, with_settings, with_controls, with_approach, with_motion, with_fallbacks, with_force, with_friction, with_rotation, friction_in};
ghost use Rattle.wheel.specs.declared.Wheel.{Wheel};
ghost use Rattle.table.specs.Layout as at;
ghost use Rattle.table.specs.Rows.{vector_at, rotation_at, inertia_at, info_at, info_list, place_at, place_list, tuning_at, settings_at, settings_list, steering_at, steering_list, controls_at, controls_list, by_rotation_at, by_angle_at, approach_at, approach_list, motion_at, motion_list, fallbacks_at, fallbacks_list, wheel_of, row_of};

use super::layout::*;
use tyre::{Approach, Friction, WheelTuning};
use vector::{Inertia, Rotation, Vector};
use wheel::{
    Controls, Fallbacks, KeptControls, KeptSteering, Motion, Place, RayCastInfo, Settings,
    Steering, Wheel,
};

#[tactic(auto, unfolding(crate::specs::Rows::vector_at))]
pub fn vector_at(l: &[f32], a: usize) -> Vector
    requires { a + 2 < length l.now }
    ensures { result ≡ vector_at l.now a }
{
    Vector {
        x: l[a],
        y: l[a + 1],
        z: l[a + 2],
    }
}

#[tactic(auto, unfolding(crate::specs::Rows::rotation_at))]
pub fn rotation_at(l: &[f32], a: usize) -> Rotation
    requires { a + 3 < length l.now }
    ensures { result ≡ rotation_at l.now a }
{
    let b = vector_at(l, a);
    Rotation { b, w: l[a + 3] }
}

#[tactic(auto, unfolding(crate::specs::Rows::inertia_at))]
pub fn inertia_at(l: &[f32], a: usize) -> Inertia
    requires { a + 5 < length l.now }
    ensures { result ≡ inertia_at l.now a }
{
    Inertia {
        xx: l[a],
        xy: l[a + 1],
        xz: l[a + 2],
        yy: l[a + 3],
        yz: l[a + 4],
        zz: l[a + 5],
    }
}

// ---- each part of a wheel from place a on
#[tactic(auto, unfolding(crate::specs::Rows::info_at))]
fn info_at(l: &[f32], a: usize) -> RayCastInfo
    requires { a + at.INFO ≤ length l.now }
    ensures { result ≡ info_at l.now a }
{
    RayCastInfo {
        normal: vector_at(l, a + NORMAL),
        point: vector_at(l, a + POINT),
        length: l[a + LENGTH],
        hard: vector_at(l, a + HARD),
    }
}

#[tactic(auto, unfolding(crate::specs::Rows::place_at))]
fn place_at(l: &[f32], a: usize) -> Place
    requires { a + at.PLACE ≤ length l.now }
    ensures { result ≡ place_at l.now a }
{
    Place {
        centre: vector_at(l, a + CENTRE),
        direction: vector_at(l, a + WORLD_DIRECTION),
        axle: vector_at(l, a + WORLD_AXLE),
    }
}

#[tactic(auto, unfolding(crate::specs::Rows::tuning_at))]
fn tuning_at(l: &[f32], a: usize) -> WheelTuning
    requires { a + at.TUNING ≤ length l.now }
    ensures { result ≡ tuning_at l.now a }
{
    WheelTuning {
        stiffness: l[a + STIFFNESS],
        compression: l[a + COMPRESSION],
        damping: l[a + DAMPING],
        travel: l[a + TRAVEL],
        sideways: l[a + SIDEWAYS],
        slip: l[a + SLIP],
        most: l[a + MOST],
    }
}

#[tactic(auto, unfolding(crate::specs::Rows::settings_at))]
pub fn settings_at(l: &[f32], a: usize) -> Settings
    requires { a + at.SETTINGS ≤ length l.now }
    ensures { result ≡ settings_at l.now a }
{
    Settings {
        connection: vector_at(l, a + CONNECTION),
        direction: vector_at(l, a + DIRECTION),
        axle: vector_at(l, a + AXLE),
        rest: l[a + REST],
        radius: l[a + RADIUS],
        tuning: tuning_at(l, a + TUNING_AT),
        roll: l[a + ROLL],
    }
}

#[tactic(auto, unfolding(crate::specs::Rows::steering_at))]
fn steering_at(l: &[f32], a: usize) -> KeptSteering
    requires { a + at.STEERING ≤ length l.now }
    ensures { result ≡ steering_at l.now a }
{
    KeptSteering {
        rotation: rotation_at(l, a + STEERING_ROTATION),
        angle: l[a + STEERING_ANGLE],
        kind: l[a + STEERING_KIND],
    }
}

#[tactic(auto, unfolding(crate::specs::Rows::controls_at))]
fn controls_at(l: &[f32], a: usize) -> KeptControls
    requires { a + at.CONTROLS ≤ length l.now }
    ensures { result ≡ controls_at l.now a }
{
    KeptControls {
        engine: l[a + ENGINE],
        brake: l[a + BRAKE],
        steering: steering_at(l, a + STEERING_AT),
    }
}

// ---- controls as they are handed in, with a rotation or with an angle
#[tactic(auto, unfolding(crate::specs::Rows::by_rotation_at))]
pub fn by_rotation_at(l: &[f32], a: usize) -> Controls
    requires { a + at.BY-ROTATION ≤ length l.now }
    ensures { result ≡ by_rotation_at l.now a }
{
    let q = rotation_at(l, a + STEERING_AT);
    Controls {
        engine: l[a + ENGINE],
        brake: l[a + BRAKE],
        steering: Steering::ByRotation(q),
    }
}

#[tactic(auto, unfolding(crate::specs::Rows::by_angle_at))]
pub fn by_angle_at(l: &[f32], a: usize) -> Controls
    requires { a + at.BY-ANGLE ≤ length l.now }
    ensures { result ≡ by_angle_at l.now a }
{
    let angle = l[a + STEERING_AT];
    Controls {
        engine: l[a + ENGINE],
        brake: l[a + BRAKE],
        steering: Steering::ByAngle(angle),
    }
}

#[tactic(auto, unfolding(crate::specs::Rows::approach_at))]
fn approach_at(l: &[f32], a: usize) -> Approach
    requires { a + at.APPROACH ≤ length l.now }
    ensures { result ≡ approach_at l.now a }
{
    Approach {
        velocity: l[a + VELOCITY],
        inverse: l[a + INVERSE],
    }
}

#[tactic(auto, unfolding(crate::specs::Rows::motion_at))]
fn motion_at(l: &[f32], a: usize) -> Motion
    requires { a + at.MOTION ≤ length l.now }
    ensures { result ≡ motion_at l.now a }
{
    Motion {
        rotation: l[a + ROTATION],
        spin: l[a + SPIN],
        force: l[a + FORCE],
        forward: l[a + FORWARD_IMPULSE],
        side: l[a + SIDE_IMPULSE],
        skid: l[a + SKID],
    }
}

#[tactic(auto, unfolding(crate::specs::Rows::fallbacks_at))]
fn fallbacks_at(l: &[f32], a: usize) -> Fallbacks
    requires { a + at.FALLBACKS ≤ length l.now }
    ensures { result ≡ fallbacks_at l.now a }
{
    Fallbacks {
        axis: l[a + AXIS_FALLBACK],
        forward: l[a + FORWARD_FALLBACK],
    }
}

// A row as a wheel.
#[tactic(auto, unfolding(crate::specs::Rows::wheel_of))]
pub fn read_row(row: &[f32]) -> Wheel
    requires { length row.now ≡ at.ROW }
    ensures { result ≡ wheel_of row.now }
{
    Wheel {
        info: info_at(row, INFO_AT),
        place: place_at(row, PLACE_AT),
        settings: settings_at(row, SETTINGS_AT),
        controls: controls_at(row, CONTROLS_AT),
        approach: approach_at(row, APPROACH_AT),
        motion: motion_at(row, MOTION_AT),
        fallbacks: fallbacks_at(row, FALLBACKS_AT),
    }
}

// The impulses and the skid of a row.
#[tactic(auto, unfolding(crate::specs::Rows::wheel_of, crate::specs::Rows::motion_at))]
pub fn read_friction(row: &[f32]) -> Friction
    requires { length row.now ≡ at.ROW }
    ensures { result ≡ friction_in (wheel_of row.now) }
{
    Friction {
        forward: row[MOTION_AT + FORWARD_IMPULSE],
        side: row[MOTION_AT + SIDE_IMPULSE],
        skid: row[MOTION_AT + SKID],
    }
}

// ---- the numbers of each part, in order
fn info_numbers(i: RayCastInfo) -> [f32; INFO]
    ensures { result ≡ info_list i }
{
    [
        i.normal.x, i.normal.y, i.normal.z, i.point.x, i.point.y, i.point.z, i.length, i.hard.x, i
            .hard
            .y, i.hard.z,
    ]
}

fn place_numbers(p: Place) -> [f32; PLACE]
    ensures { result ≡ place_list p }
{
    [
        p.centre.x,
        p.centre.y,
        p.centre.z,
        p.direction.x,
        p.direction.y,
        p.direction.z,
        p.axle.x,
        p.axle.y,
        p.axle.z,
    ]
}

pub fn settings_numbers(s: Settings) -> [f32; SETTINGS]
    ensures { result ≡ settings_list s }
{
    let t = s.tuning;
    [
        s.connection.x,
        s.connection.y,
        s.connection.z,
        s.direction.x,
        s.direction.y,
        s.direction.z,
        s.axle.x,
        s.axle.y,
        s.axle.z,
        s.rest,
        s.radius,
        t.stiffness,
        t.compression,
        t.damping,
        t.travel,
        t.sideways,
        t.slip,
        t.most,
        s.roll,
    ]
}

fn controls_numbers(c: KeptControls) -> [f32; CONTROLS]
    ensures { result ≡ controls_list c }
{
    let k = c.steering;
    let q = k.rotation;
    [c.engine, c.brake, q.b.x, q.b.y, q.b.z, q.w, k.angle, k.kind]
}

fn approach_numbers(a: Approach) -> [f32; APPROACH]
    ensures { result ≡ approach_list a }
{
    [a.velocity, a.inverse]
}

fn motion_numbers(m: Motion) -> [f32; MOTION]
    ensures { result ≡ motion_list m }
{
    [m.rotation, m.spin, m.force, m.forward, m.side, m.skid]
}

fn fallbacks_numbers(b: Fallbacks) -> [f32; FALLBACKS]
    ensures { result ≡ fallbacks_list b }
{
    [b.axis, b.forward]
}

// What can be written over the row of a wheel: a part, or some of its numbers. A row is a slice, since document 01 hands `&mut table[a..b]` for one
// wheel to the function that writes it.
pub trait Part {
    // the wheel with it
    ghost with: { Self → Wheel → Wheel };

    fn write(self, row: &mut [f32])
        requires { length row.old ≡ at.ROW }
        ensures { row.new ≡ row_of (with self (wheel_of row.old)) };
}

impl Part for RayCastInfo {
    ghost with = { λ x w. with_info w x };

    fn write(self, row: &mut [f32]) {
        row[INFO_AT..PLACE_AT].copy_from_slice(&info_numbers(self));
    }
}

impl Part for Place {
    ghost with = { λ x w. with_place w x };

    fn write(self, row: &mut [f32]) {
        row[PLACE_AT..SETTINGS_AT].copy_from_slice(&place_numbers(self));
    }
}

impl Part for Settings {
    ghost with = { λ x w. with_settings w x };

    fn write(self, row: &mut [f32]) {
        row[SETTINGS_AT..CONTROLS_AT].copy_from_slice(&settings_numbers(self));
    }
}

impl Part for KeptControls {
    ghost with = { λ x w. with_controls w x };

    fn write(self, row: &mut [f32]) {
        row[CONTROLS_AT..APPROACH_AT].copy_from_slice(&controls_numbers(self));
    }
}

impl Part for Approach {
    ghost with = { λ x w. with_approach w x };

    fn write(self, row: &mut [f32]) {
        row[APPROACH_AT..MOTION_AT].copy_from_slice(&approach_numbers(self));
    }
}

impl Part for Motion {
    ghost with = { λ x w. with_motion w x };

    fn write(self, row: &mut [f32]) {
        row[MOTION_AT..FALLBACKS_AT].copy_from_slice(&motion_numbers(self));
    }
}

impl Part for Fallbacks {
    ghost with = { λ x w. with_fallbacks w x };

    fn write(self, row: &mut [f32]) {
        row[FALLBACKS_AT..ROW].copy_from_slice(&fallbacks_numbers(self));
    }
}

// The impulses and the skid.
impl Part for Friction {
    ghost with = { λ d w. with_friction w d };

    fn write(self, row: &mut [f32]) {
        row[MOTION_AT + FORWARD_IMPULSE] = self.forward;
        row[MOTION_AT + SIDE_IMPULSE] = self.side;
        row[MOTION_AT + SKID] = self.skid;
    }
}

// The force of the suspension.
#[derive(Clone, Copy)]
pub struct Force(pub f32);

impl Part for Force {
    ghost with = { λ f w. with_force w f.0 };

    fn write(self, row: &mut [f32]) {
        row[MOTION_AT + FORCE] = self.0;
    }
}

// The rotation and the spin.
#[derive(Clone, Copy)]
pub struct Spinning {
    pub rotation: f32,
    pub spin: f32,
}

impl Part for Spinning {
    ghost with = { λ t w. with_rotation w t.rotation t.spin };

    fn write(self, row: &mut [f32]) {
        row[MOTION_AT + ROTATION] = self.rotation;
        row[MOTION_AT + SPIN] = self.spin;
    }
}

// One after the other.
impl<A: Part, B: Part> Part for (A, B) {
    ghost with = { λ p w. B.with p.1 (A.with p.0 w) };

    fn write(self, row: &mut [f32]) {
        let (a, b) = self;
        a.write(row);
        b.write(row);
    }
}

// A whole wheel.
impl Part for Wheel {
    ghost with = { λ x w. x };

    fn write(self, row: &mut [f32]) {
        self.info.write(row);
        self.place.write(row);
        self.settings.write(row);
        self.controls.write(row);
        self.approach.write(row);
        self.motion.write(row);
        self.fallbacks.write(row);
    }
}
