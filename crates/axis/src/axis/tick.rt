// The tick call.
ghost use Rattle.std.specs.Prelude.{◌≡◌, ◌≢◌, ℤ, false, pos, if◌then◌else◌, Some, None, MatchBool};
ghost use Rattle.table.specs.TablePlans.{row_plan};
ghost use Rattle.table.specs.Tables.{table_means};
ghost use Rattle.axis.specs.Axes.{meaning};
ghost use Rattle.axis.specs.Ticks.{due, takes_all, steps_sent, moved, moved_on, is_plan, row_steps, row_begun, OneTick, FirstTick, in_motion, tick_steps, tick_after, TickUses};

use crate::axis::Axis;
use crate::flags::Pace;
use crate::order::DwellRow;
use crate::state::State;
use drive::direction::Direction;
use drive::send::send;
use drive::traits::Drive;
use profile::traits::Profile;

impl<D: Drive, P: Profile> Axis<D, P> {
    // The profile ticks, and the steps due go to the drive; none where the drive refuses them.
    #[inline(always)]
    #[tactic(auto, using(crate::proofs::Sending::sent, crate::proofs::Sending::sent_once))]
    fn advance(&mut self, direction: Direction) -> Option<i32>
        ensures answer { result ≡ (if takes_all D.Drive.G (D.Drive.means self.old.drive) (due direction (P.Profile.means self.old.profile).gone (P.Profile.means self.new.profile)) then Some (due direction (P.Profile.means self.old.profile).gone (P.Profile.means self.new.profile)) else None) }
        ensures after { meaning D.Drive P.Profile self.new ≡ moved D.Drive.G (meaning D.Drive P.Profile self.old) direction (P.Profile.means self.old.profile).gone (P.Profile.means self.new.profile) }
        ensures ticked { OneTick (P.Profile.means self.old.profile) (P.Profile.means self.new.profile) }
        ensures refused { result ≡ None → self.new.drive ≡ self.old.drive }
        ensures none { result ≡ Some (pos 0) → self.new.drive ≡ self.old.drive }
        ensures once { (n : ℤ) → result ≡ Some n → (n ≢ pos 0) → D.Drive.Advanced self.old.drive n self.new.drive }
    {
        let sent = self.profile.gone() / 1000;
        let advance = self.profile.tick();
        self.memory.pace = Pace {
            last: advance,
            before: self.memory.pace.last,
        };
        send(&mut self.drive, self.profile.gone(), sent, direction).ok()
    }

    // A tick of what moves; a drive that refuses makes a full stop.
    #[inline(always)]
    fn move_on(&mut self, direction: Direction) -> i32
        ensures steps { result ≡ steps_sent D.Drive.G (meaning D.Drive P.Profile self.old) direction (P.Profile.means self.old.profile).gone (P.Profile.means self.new.profile) }
        ensures after { meaning D.Drive P.Profile self.new ≡ moved_on D.Drive.G self.old.memory.state (meaning D.Drive P.Profile self.old) direction (P.Profile.means self.old.profile).gone (P.Profile.means self.new.profile) }
        ensures ticked { OneTick (P.Profile.means self.old.profile) (P.Profile.means self.new.profile) }
        ensures none { result ≡ pos 0 → self.new.drive ≡ self.old.drive }
        ensures once { (result ≢ pos 0) → D.Drive.Advanced self.old.drive result self.new.drive }
    {
        let Some(steps) = self.advance(direction) else {
            self.memory.stop();
            return 0;
        };
        self.memory.go_on(self.profile.done(), self.drive.place());
        steps
    }

    // The tick that begins a row of a dwell move; where there is no such row, a full stop.
    fn begin_row(&mut self, row: DwellRow) -> i32
        ensures steps { result ≡ row_steps D.Drive.G (meaning D.Drive P.Profile self.old) row (P.Profile.means self.new.profile) }
        ensures after { meaning D.Drive P.Profile self.new ≡ row_begun D.Drive.G (meaning D.Drive P.Profile self.old) row (P.Profile.means self.new.profile) }
        ensures uses { MatchBool (is_plan (row_plan (table_means self.old.memory.table) row.run.rates row.index)) (FirstTick (P.Profile.means self.old.profile) (row_plan (table_means self.old.memory.table) row.run.rates row.index) (P.Profile.means self.new.profile)) (P.Profile.means self.new.profile ≡ P.Profile.means self.old.profile) }
        ensures none { result ≡ pos 0 → self.new.drive ≡ self.old.drive }
        ensures once { (result ≢ pos 0) → D.Drive.Advanced self.old.drive result self.new.drive }
    {
        let Ok(plan) = self.memory.table.row_plan(row.run.rates, row.index) else {
            self.memory.stop();
            return 0;
        };
        let travel = self.memory.row_travel(row);
        self.begin(plan, travel);
        self.move_on(travel.direction)
    }

    // One millisecond. Answers the steps that were sent.
    pub fn tick(&mut self) -> i32
        ensures steps { result ≡ tick_steps D.Drive.G self.old.memory.state (meaning D.Drive P.Profile self.old) (P.Profile.means self.new.profile) }
        ensures after { meaning D.Drive P.Profile self.new ≡ tick_after D.Drive.G self.old.memory.state (meaning D.Drive P.Profile self.old) (P.Profile.means self.new.profile) }
        ensures uses { TickUses self.old.memory.state (meaning D.Drive P.Profile self.old) (P.Profile.means self.new.profile) }
        ensures none { result ≡ pos 0 → self.new.drive ≡ self.old.drive }
        ensures once { (result ≢ pos 0) → D.Drive.Advanced self.old.drive result self.new.drive }
        ensures still { in_motion self.old.memory.state ≡ false → self.new.profile ≡ self.old.profile }
    {
        match self.memory.state {
            State::Running(travel) | State::Holding(travel) => self.move_on(travel.direction),
            State::Pausing { next, ticks: 0 } => self.begin_row(next),
            State::Pausing { .. } => {
                self.memory.wait();
                0
            }
            State::Idle | State::Programming | State::Held(_) => 0,
        }
    }
}
