// Vectors, rotations, poses and inverse inertia over f32: document 01's "Vector arithmetic", operation for operation.
#![tactic(auto)]

ghost use Rattle.std.specs.Prelude.{◌≡◌};
ghost use Rattle.std.specs.Float.{binary32};
ghost use Rattle.vector.specs.Arithmetic.{zero_v, add_v, sub_v, neg_v, scale_v, parts_v, dot_v, cross_v, length_v, normalize_or_zero, rotate_v, transform_point, rows_of, row_dot, rows_dot, inertia_dot, ith};

#[derive(Clone, Copy)]
pub struct Vector {
    pub x: f32,
    pub y: f32,
    pub z: f32,
}

// What normalising gives: the vector at length 1, or zero where it fell back to that. No `Option`: document 01's answer is a vector, which
// all uses but three take as it is.
#[derive(Clone, Copy)]
pub struct Normalized {
    pub vector: Vector,
    pub fellback: bool,
}

// A rotation (b, w).
#[derive(Clone, Copy)]
pub struct Rotation {
    pub b: Vector,
    pub w: f32,
}

#[derive(Clone, Copy)]
pub struct Pose {
    pub translation: Vector,
    pub rotation: Rotation,
}

// The six numbers of a symmetric three by three array.
#[derive(Clone, Copy)]
pub struct Inertia {
    pub xx: f32,
    pub xy: f32,
    pub xz: f32,
    pub yy: f32,
    pub yz: f32,
    pub zz: f32,
}

// The zero vector.
#[tactic(auto, unfolding(crate::specs::Arithmetic::zero_v))]
pub fn zero() -> Vector
    ensures { result ≡ zero_v }
{
    Vector {
        x: 0.0,
        y: 0.0,
        z: 0.0,
    }
}

// The sum, part by part.
#[tactic(auto, unfolding(crate::specs::Arithmetic::add_v))]
pub fn add(a: Vector, b: Vector) -> Vector
    ensures { result ≡ add_v binary32 a b }
{
    Vector {
        x: a.x + b.x,
        y: a.y + b.y,
        z: a.z + b.z,
    }
}

// a less b, part by part.
#[tactic(auto, unfolding(crate::specs::Arithmetic::sub_v))]
pub fn sub(a: Vector, b: Vector) -> Vector
    ensures { result ≡ sub_v binary32 a b }
{
    Vector {
        x: a.x - b.x,
        y: a.y - b.y,
        z: a.z - b.z,
    }
}

// The vector turned round, part by part.
#[tactic(auto, unfolding(crate::specs::Arithmetic::neg_v))]
pub fn neg(a: Vector) -> Vector
    ensures { result ≡ neg_v a }
{
    Vector {
        x: -a.x,
        y: -a.y,
        z: -a.z,
    }
}

// The vector times a number, part by part.
#[tactic(auto, unfolding(crate::specs::Arithmetic::scale_v))]
pub fn scale(a: Vector, s: f32) -> Vector
    ensures { result ≡ scale_v binary32 a s }
{
    Vector {
        x: a.x * s,
        y: a.y * s,
        z: a.z * s,
    }
}

// The product part by part.
#[tactic(auto, unfolding(crate::specs::Arithmetic::parts_v))]
pub fn parts(a: Vector, b: Vector) -> Vector
    ensures { result ≡ parts_v binary32 a b }
{
    Vector {
        x: a.x * b.x,
        y: a.y * b.y,
        z: a.z * b.z,
    }
}

// The dot product, (x·x' + y·y') + z·z'.
#[tactic(auto, unfolding(crate::specs::Arithmetic::dot_v))]
pub fn dot(a: Vector, b: Vector) -> f32
    ensures { result ≡ dot_v binary32 a b }
{
    (a.x * b.x + a.y * b.y) + a.z * b.z
}

// The cross product, whose first part is y·z' - z·y', the rest cyclic.
#[tactic(auto, unfolding(crate::specs::Arithmetic::cross_v))]
pub fn cross(a: Vector, b: Vector) -> Vector
    ensures { result ≡ cross_v binary32 a b }
{
    Vector {
        x: a.y * b.z - a.z * b.y,
        y: a.z * b.x - a.x * b.z,
        z: a.x * b.y - a.y * b.x,
    }
}

// The length: the root of the dot with itself.
#[tactic(auto, unfolding(crate::specs::Arithmetic::length_v))]
pub fn length(a: Vector) -> f32
    ensures { result ≡ length_v binary32 a }
{
    real::root::root(dot(a, a))
}

// The vector at length 1; zero where the reciprocal of its length is not finite and above 0, and whether that is so.
#[tactic(auto, unfolding(crate::specs::Arithmetic::normalize_or_zero))]
pub fn normalize_or_zero(v: Vector) -> Normalized
    ensures { result ≡ normalize_or_zero binary32 v }
{
    let r = 1.0 / length(v);
    if real::is_usable(r) {
        Normalized {
            vector: scale(v, r),
            fellback: false,
        }
    } else {
        Normalized {
            vector: zero(),
            fellback: true,
        }
    }
}

// The vector v rotated by q.
#[tactic(auto, using(real::proofs::Literals::two_is), unfolding(crate::specs::Arithmetic::rotate_v))]
pub fn rotate(q: Rotation, v: Vector) -> Vector
    ensures { result ≡ rotate_v binary32 q v }
{
    let b = q.b;
    let w = q.w;
    let along = scale(v, w * w - dot(b, b));
    let onto = scale(b, dot(v, b) * 2.0);
    add(add(along, onto), scale(cross(b, v), w * 2.0))
}

// A point under a pose: rotated, then moved.
#[tactic(auto, unfolding(crate::specs::Arithmetic::transform_point))]
pub fn transform_point(p: Pose, v: Vector) -> Vector
    ensures { result ≡ transform_point binary32 p v }
{
    add(rotate(p.rotation, v), p.translation)
}

// The symmetric three by three array of an inverse inertia, row by row.
#[tactic(auto, unfolding(crate::specs::Arithmetic::rows_of))]
fn rows(i: Inertia) -> [[f32; 3]; 3]
    ensures { result ≡ rows_of i }
{
    [[i.xx, i.xy, i.xz], [i.xy, i.yy, i.yz], [i.xz, i.yz, i.zz]]
}

// The dot of one row and a vector.
#[tactic(auto, unfolding(crate::specs::Arithmetic::row_dot))]
fn row_dot(row: [f32; 3], v: Vector) -> f32
    ensures { result ≡ row_dot binary32 row v }
{
    dot(
        Vector {
            x: row[0],
            y: row[1],
            z: row[2],
        },
        v,
    )
}

// The product of an array of rows and a vector: three row dots.
#[tactic(auto, unfolding(crate::specs::Arithmetic::rows_dot))]
fn rows_dot(m: [[f32; 3]; 3], v: Vector) -> Vector
    ensures { result ≡ rows_dot binary32 m v }
{
    Vector {
        x: row_dot(m[0], v),
        y: row_dot(m[1], v),
        z: row_dot(m[2], v),
    }
}

// The product of an inverse inertia and a vector.
#[tactic(auto, unfolding(crate::specs::Arithmetic::inertia_dot))]
pub fn inertia_dot(i: Inertia, v: Vector) -> Vector
    ensures { result ≡ inertia_dot binary32 i v }
{
    let m = rows(i);
    rows_dot(m, v)
}

// The axis of number i: 0 x, 1 y, 2 z, and above that none.
#[tactic(auto, unfolding(crate::specs::Arithmetic::ith, real::specs::Scalar::flag_number))]
pub fn ith(i: u32) -> Vector
    ensures { result ≡ ith i }
{
    Vector {
        x: real::flag_number(i == 0),
        y: real::flag_number(i == 1),
        z: real::flag_number(i == 2),
    }
}
