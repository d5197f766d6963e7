// The layout of the lent table: document 01, "What a vehicle keeps". Each place is counted from the one before it; the last of a part is its length.
// The kept chassis, at the start of the table.
pub const TRANSLATION: usize = 0;

pub const ORIENTATION: usize = TRANSLATION + 3;

pub const MASS_CENTRE: usize = ORIENTATION + 4;

pub const LINVEL: usize = MASS_CENTRE + 3;

pub const ANGVEL: usize = LINVEL + 3;

pub const INVMASS: usize = ANGVEL + 3;

pub const EFFECTIVE: usize = INVMASS + 1;

pub const INERTIA: usize = EFFECTIVE + 3;

pub const KEPT: usize = INERTIA + 6;

// The ray info of a wheel.
pub const NORMAL: usize = 0;

pub const POINT: usize = NORMAL + 3;

pub const LENGTH: usize = POINT + 3;

pub const HARD: usize = LENGTH + 1;

pub const INFO: usize = HARD + 3;

// The place of a wheel: its centre, and the world's direction and axle.
pub const CENTRE: usize = 0;

pub const WORLD_DIRECTION: usize = CENTRE + 3;

pub const WORLD_AXLE: usize = WORLD_DIRECTION + 3;

pub const PLACE: usize = WORLD_AXLE + 3;

// A tuning, in the source's declared order.
pub const STIFFNESS: usize = 0;

pub const COMPRESSION: usize = STIFFNESS + 1;

pub const DAMPING: usize = COMPRESSION + 1;

pub const TRAVEL: usize = DAMPING + 1;

pub const SIDEWAYS: usize = TRAVEL + 1;

pub const SLIP: usize = SIDEWAYS + 1;

pub const MOST: usize = SLIP + 1;

pub const TUNING: usize = MOST + 1;

// The settings of a wheel.
pub const CONNECTION: usize = 0;

pub const DIRECTION: usize = CONNECTION + 3;

pub const AXLE: usize = DIRECTION + 3;

pub const REST: usize = AXLE + 3;

pub const RADIUS: usize = REST + 1;

pub const TUNING_AT: usize = RADIUS + 1;

pub const ROLL: usize = TUNING_AT + TUNING;

pub const SETTINGS: usize = ROLL + 1;

// The steering of a wheel, as it is kept: the rotation, the angle, and which of the two was given.
pub const STEERING_ROTATION: usize = 0;

pub const STEERING_ANGLE: usize = STEERING_ROTATION + 4;

pub const STEERING_KIND: usize = STEERING_ANGLE + 1;

pub const STEERING: usize = STEERING_KIND + 1;

// The controls of a wheel.
pub const ENGINE: usize = 0;

pub const BRAKE: usize = ENGINE + 1;

pub const STEERING_AT: usize = BRAKE + 1;

pub const CONTROLS: usize = STEERING_AT + STEERING;

// How many numbers the controls are as they are handed in: engine, brake, and the rotation or the angle.
pub const BY_ROTATION: usize = STEERING_AT + 4;

pub const BY_ANGLE: usize = STEERING_AT + 1;

// How the ray of a wheel met the ground.
pub const VELOCITY: usize = 0;

pub const INVERSE: usize = VELOCITY + 1;

pub const APPROACH: usize = INVERSE + 1;

// The motion of a wheel.
pub const ROTATION: usize = 0;

pub const SPIN: usize = ROTATION + 1;

pub const FORCE: usize = SPIN + 1;

pub const FORWARD_IMPULSE: usize = FORCE + 1;

pub const SIDE_IMPULSE: usize = FORWARD_IMPULSE + 1;

pub const SKID: usize = SIDE_IMPULSE + 1;

pub const MOTION: usize = SKID + 1;

// Whether the axis and the forward direction of a wheel fell back to zero.
pub const AXIS_FALLBACK: usize = 0;

pub const FORWARD_FALLBACK: usize = AXIS_FALLBACK + 1;

pub const FALLBACKS: usize = FORWARD_FALLBACK + 1;

// A row: one part after another.
pub const INFO_AT: usize = 0;

pub const PLACE_AT: usize = INFO_AT + INFO;

pub const SETTINGS_AT: usize = PLACE_AT + PLACE;

pub const CONTROLS_AT: usize = SETTINGS_AT + SETTINGS;

pub const APPROACH_AT: usize = CONTROLS_AT + CONTROLS;

pub const MOTION_AT: usize = APPROACH_AT + APPROACH;

pub const FALLBACKS_AT: usize = MOTION_AT + MOTION;

pub const ROW: usize = FALLBACKS_AT + FALLBACKS;

// The table.
pub const WHEELS: usize = 16;

pub const SIZE: usize = KEPT + WHEELS * ROW;

// The whole numbers beside the table.
pub const COUNT: usize = 0;

pub const MARK: usize = COUNT + 1;

pub const UP: usize = MARK + 1;

pub const FORWARD: usize = UP + 1;

pub const WHOLE: usize = FORWARD + 1;

// The marks.
pub const NEW: u32 = 0;

pub const AIMED: u32 = 1;

pub const DRIVEN: u32 = 2;

// A ground body, as it is lent to a drive.
pub const BODY_CENTRE: usize = 0;

pub const BODY_LINVEL: usize = BODY_CENTRE + 3;

pub const BODY_ANGVEL: usize = BODY_LINVEL + 3;

pub const BODY_INVMASS: usize = BODY_ANGVEL + 3;

pub const BODY_INERTIA: usize = BODY_INVMASS + 1;

pub const BODY: usize = BODY_INERTIA + 6;

pub const BODIES: usize = 64;
