// The lent table by its rows, the kept chassis, and the lent ground bodies.
ghost use Rattle.std.specs.Prelude.{◌≡◌, ◌+◌, ◌*◌, ◌<◌, ◌≤◌, length};
ghost use Rattle.wheel.specs.Parts.{friction_in};
ghost use Rattle.table.specs.Layout as at;
ghost use Rattle.table.specs.Rows.{row_start, wheel_at, put_wheel, chassis_of, chassis_list, chassis_at, put_chassis, body_of, body_at};

use super::layout::*;
use super::parts::*;
use body::{Body, Chassis};
use tyre::Friction;
use vector::Pose;
use wheel::Wheel;

// Where the row of wheel i starts; with the count of wheels, where the rows in use end.
pub fn row_start(i: usize) -> usize
    requires { i ≤ at.WHEELS }
    ensures { result ≡ row_start i }
{
    KEPT + i * ROW
}

// Wheel i of the table.
pub fn get_wheel(table: &[f32; SIZE], i: usize) -> Wheel
    requires { i < at.WHEELS }
    ensures { result ≡ wheel_at table.now i }
{
    let a = row_start(i);
    let e = a + ROW;
    read_row(&table[a..e])
}

// The impulses and the skid of wheel i.
pub fn get_friction(table: &[f32; SIZE], i: usize) -> Friction
    requires { i < at.WHEELS }
    ensures { result ≡ friction_in (wheel_at table.now i) }
{
    let a = row_start(i);
    let e = a + ROW;
    read_friction(&table[a..e])
}

// The table with a part, or some numbers, of wheel i: its row is lent on as a part of the table.
pub fn put<P: Part>(table: &mut [f32; SIZE], i: usize, p: P)
    requires { i < at.WHEELS }
    ensures { table.new ≡ put_wheel table.old i (P.with p (wheel_at table.old i)) }
{
    let a = row_start(i);
    let e = a + ROW;
    p.write(&mut table[a..e]);
}

#[tactic(auto, unfolding(crate::specs::Rows::chassis_of))]
pub fn read_chassis(l: &[f32]) -> Chassis
    requires { length l.now ≡ at.KEPT }
    ensures { result ≡ chassis_of l.now }
{
    Chassis {
        pose: Pose {
            translation: vector_at(l, TRANSLATION),
            rotation: rotation_at(l, ORIENTATION),
        },
        body: Body {
            centre: vector_at(l, MASS_CENTRE),
            linvel: vector_at(l, LINVEL),
            angvel: vector_at(l, ANGVEL),
            invmass: l[INVMASS],
            inertia: inertia_at(l, INERTIA),
        },
        effective: vector_at(l, EFFECTIVE),
    }
}

// The numbers of a chassis, in order.
#[tactic(auto, unfolding(crate::specs::Rows::chassis_list))]
pub fn chassis_numbers(c: Chassis) -> [f32; KEPT]
    ensures { result ≡ chassis_list c }
{
    let p = c.pose;
    let b = c.body;
    let e = c.effective;
    let i = b.inertia;
    [
        p.translation.x,
        p.translation.y,
        p.translation.z,
        p.rotation.b.x,
        p.rotation.b.y,
        p.rotation.b.z,
        p.rotation.w,
        b.centre.x,
        b.centre.y,
        b.centre.z,
        b.linvel.x,
        b.linvel.y,
        b.linvel.z,
        b.angvel.x,
        b.angvel.y,
        b.angvel.z,
        b.invmass,
        e.x,
        e.y,
        e.z,
        i.xx,
        i.xy,
        i.xz,
        i.yy,
        i.yz,
        i.zz,
    ]
}

// The kept chassis of the table.
pub fn get_chassis(table: &[f32; SIZE]) -> Chassis
    ensures { result ≡ chassis_at table.now }
{
    read_chassis(&table[0..KEPT])
}

// The table with another chassis.
pub fn put_chassis(table: &mut [f32; SIZE], c: Chassis)
    ensures { table.new ≡ put_chassis table.old c }
{
    table[0..KEPT].copy_from_slice(&chassis_numbers(c));
}

#[tactic(auto, unfolding(crate::specs::Rows::body_of))]
fn read_body(l: &[f32]) -> Body
    requires { length l.now ≡ at.BODY }
    ensures { result ≡ body_of l.now }
{
    Body {
        centre: vector_at(l, BODY_CENTRE),
        linvel: vector_at(l, BODY_LINVEL),
        angvel: vector_at(l, BODY_ANGVEL),
        invmass: l[BODY_INVMASS],
        inertia: inertia_at(l, BODY_INERTIA),
    }
}

// Ground body i of a lent list.
pub fn get_body(l: &[f32], i: usize) -> Body
    requires { (i < at.BODIES) × (i * at.BODY + at.BODY ≤ length l.now) }
    ensures { result ≡ body_at l.now i }
{
    let a = i * BODY;
    let e = a + BODY;
    read_body(&l[a..e])
}
