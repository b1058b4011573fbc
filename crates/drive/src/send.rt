// The steps of one tick, counted and delivered.
ghost use Rattle.std.specs.Prelude.{◌-◌, ◌/◌};
ghost use Rattle.drive.specs.Deliveries.{Delivered};
ghost use Rattle.drive.specs.Directions.{signed};

use crate::direction::Direction;
use crate::fault::DriveFault;
use crate::token::StepToken;
use crate::traits::Drive;

// Sends a drive the whole steps of `gone` millisteps that were not sent before, and answers them. The token is what is made of the three
// numbers: a struct of them would only be taken apart to make it, here and in `StepToken::count`.
pub fn send<D: Drive>(
    drive: &mut D,
    gone: u64,
    sent: u64,
    direction: Direction,
) -> Result<i32, DriveFault>
    ensures { Delivered D.Drive.means D.Drive.Advanced D.Drive.G (signed direction (gone / 1000 - sent)) drive.old result drive.new }
{
    let token = StepToken::count(gone, sent, direction);
    token.deliver(drive)
}
