// The pulse drive: a count of steps and a direction line.
ghost use Rattle.std.specs.Prelude.{◌≡◌};
ghost use Rattle.drive.specs.Directions.{last_direction};
ghost use Rattle.drive.specs.Drives.{at_rest};
ghost use Rattle.drive.specs.PulseDrives.{pulse_means, line_of};
ghost use Rattle.drive.specs.declared.direction.Direction.TheVariants.{Cw};
ghost use Rattle.std.proofs.Common.{rules};

use crate::direction::Direction;
use crate::output::Output;
use crate::stepper::Stepper;

pub type PulseDrive = Stepper<Direction>;

// The sign of the last advance that was not 0.
impl Output for Direction {
    const G: u32 = 200;

    ghost G = { 200 };

    ghost moved = { last_direction };

    ghost bounded = { Prim.search rules };

    fn move_by(&mut self, n: i32) {
        *self = self.after(n);
    }
}

impl PulseDrive {
    // At place 0, not tripped, its direction line clockwise.
    pub fn new() -> Self
        ensures means { pulse_means result ≡ at_rest }
        ensures line { line_of result ≡ Cw }
    {
        Stepper::at_rest(Direction::Cw)
    }

    // The direction line: the sign of the last advance that was not 0.
    pub fn line(&self) -> Direction
        ensures { result ≡ line_of self.now }
    {
        *self.output()
    }
}
