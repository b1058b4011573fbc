// Positions, and which places a drive can be set to.
ghost use Rattle.std.specs.Prelude.{◌≡◌};
ghost use Rattle.drive.specs.Positions.{is_position, distance as distance_of};
ghost use Rattle.drive.specs.Drives.{setting as setting_of};

use crate::fault::DriveFault;

// The farthest position in either direction.
pub const FARTHEST: u32 = 8_388_607;

// No type around an `i32` that is one: blocks, scripts and readings say plain numbers, and what stands in a drive is one by its law `placed`.
pub fn is_position(p: i32) -> bool
    ensures { result ≡ is_position p }
{
    p.unsigned_abs() <= FARTHEST
}

// The steps between two places.
pub fn distance(from: i32, to: i32) -> u32
    ensures { result ≡ distance_of from to }
{
    to.abs_diff(from)
}

// The place that a set gives, or why it refuses.
pub(crate) fn setting(p: i32) -> Result<i32, DriveFault>
    ensures { result ≡ setting_of p }
{
    if is_position(p) {
        Ok(p)
    } else {
        Err(DriveFault::NoPosition)
    }
}
