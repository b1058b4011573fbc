// The end of a step token.
ghost use Rattle.drive.specs.Deliveries.{Delivered};
ghost use Rattle.drive.specs.Tokens.{due_of};

use super::StepToken;
use crate::fault::DriveFault;
use crate::traits::Drive;

// Brings a drive `n` steps by one advance, and answers them. Where there are none, the drive is not called.
fn bring<D: Drive>(drive: &mut D, n: i32) -> Result<i32, DriveFault>
    ensures { Delivered D.Drive.means D.Drive.Advanced D.Drive.G n drive.old result drive.new }
{
    if n != 0 {
        drive.advance(n)?;
    }
    Ok(n)
}

impl StepToken {
    // Brings the steps to a drive, which takes all of them or none.
    pub fn deliver<D: Drive>(self, drive: &mut D) -> Result<i32, DriveFault>
        ensures { Delivered D.Drive.means D.Drive.Advanced D.Drive.G (due_of self) drive.old result drive.new }
    {
        let StepToken { steps, direction } = self;
        bring(drive, direction.signed(steps))
    }
}
