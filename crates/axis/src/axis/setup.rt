// The set-up call.
ghost use Rattle.std.specs.Prelude.{◌≡◌, false};
ghost use Rattle.axis.specs.Axes.{meaning};
ghost use Rattle.axis.specs.Setups.{is_idle, setup_answer, setup_after};

use crate::axis::Axis;
use crate::state::State;
use block::refusal::Refusal;
use drive::traits::Drive;
use profile::traits::Profile;
use table::table::Table;

impl<D: Drive, P: Profile> Axis<D, P> {
    // Takes the starting speed of all moves, in millisteps a tick.
    pub fn set_up(&mut self, speed: i32) -> Result<(), Refusal>
        ensures answer { result ≡ setup_answer D.Drive.G (meaning D.Drive P.Profile self.old) speed }
        ensures after { meaning D.Drive P.Profile self.new ≡ setup_after D.Drive.G (meaning D.Drive P.Profile self.old) speed }
        ensures busy { is_idle self.old.memory.state ≡ false → self.new ≡ self.old }
        ensures drive { self.new.drive ≡ self.old.drive }
        ensures profile { self.new.profile ≡ self.old.profile }
    {
        let State::Idle = self.memory.state else {
            return Err(Refusal::State);
        };
        if !(1..=(1000 * D::G) as i32).contains(&speed) {
            self.memory.flags.configuration = true;
            self.memory.table.clear();
            return Err(Refusal::StartSpeed);
        }
        self.memory.flags.configuration = false;
        self.memory.flags.invalid = true;
        self.memory.table = Table::new(speed.unsigned_abs());
        Ok(())
    }
}
