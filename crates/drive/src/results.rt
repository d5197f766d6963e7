// The results of an accepted drive, as numbers.
ghost use Rattle.std.specs.Prelude.{◌≡◌};
ghost use Rattle.drive.specs.Drive.{drive_reply};
ghost use Rattle.drive.specs.Results.{velocity_list};

use super::Driven;

// The six velocities of a drive.
pub const VELOCITIES: usize = 6;

// The chassis' new velocities.
pub fn velocity_numbers(d: Driven) -> [f32; VELOCITIES]
    ensures { result ≡ velocity_list (drive_reply d) }
{
    let v = d.linvel;
    let w = d.angvel;
    [v.x, v.y, v.z, w.x, w.y, w.z]
}
