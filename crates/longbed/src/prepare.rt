// A drive before the first call.
ghost use Rattle.std.specs.Prelude.{◌≡◌};
ghost use Rattle.longbed.specs.Starts.{prepared};

use crate::order::Start;
use drive::traits::Drive;

// Puts a drive where a script says that it stands, and trips it where the script says so.
pub fn prepare<D: Drive>(drive: &mut D, start: Start)
    ensures { D.Drive.means drive.new ≡ prepared (D.Drive.means drive.old) start }
{
    // An `Err` cannot come: a start's place is 0, or one that the order of lines took, and that refuses a place that is no position.
    // No ghost field of `Start` for an `unwrap`: the definitions of what a line makes of a stage would have to carry its proof.
    let _ = drive.set(start.place);
    if start.tripped {
        drive.trip();
    }
}
