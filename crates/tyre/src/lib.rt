// One tyre on plain numbers: what document 01's rules 4 and 6 to 8 say with no vector in it.
#![tactic(auto)]

pub mod suspension; // rules 4 and 6: the spring's length, how the ray meets the ground, the spring's force
pub mod demand; // rule 7: both demands, from speeds and sums of masses
pub mod grip; // rule 8, with the brake's clamp and the grip limit: what the ground gives

// The numbers of the source's `WheelTuning`, in its order: suspension_stiffness, suspension_compression, suspension_damping (document 01's
// relaxation), max_suspension_travel, side_friction_stiffness, friction_slip, max_suspension_force.
#[derive(Clone, Copy)]
pub struct WheelTuning {
    pub stiffness: f32,
    pub compression: f32,
    pub damping: f32,
    pub travel: f32,
    pub sideways: f32,
    pub slip: f32,
    pub most: f32,
}

// The ray's meeting with the ground: the source's suspension_relative_velocity and clipped_inv_contact_dot_suspension.
#[derive(Clone, Copy)]
pub struct Approach {
    pub velocity: f32,
    pub inverse: f32,
}

// The two impulses of one wheel, and its skid.
#[derive(Clone, Copy)]
pub struct Friction {
    pub forward: f32,
    pub side: f32,
    pub skid: f32,
}
