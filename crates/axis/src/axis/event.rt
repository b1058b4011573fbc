// The event call.
ghost use Rattle.std.specs.Prelude.{◌≡◌, false, is_ok};
ghost use Rattle.block.specs.Events.{event_of};
ghost use Rattle.axis.specs.Axes.{meaning};
ghost use Rattle.axis.specs.EventCalls.{heeded, trips_drive, event_answer, event_after, event_calls};

use crate::axis::Axis;
use crate::state::State;
use block::event::Event;
use block::refusal::Refusal;
use drive::traits::Drive;
use profile::traits::Profile;

impl<D: Drive, P: Profile> Axis<D, P> {
    fn trip(&mut self)
        ensures after { meaning D.Drive P.Profile self.new ≡ heeded (meaning D.Drive P.Profile self.old) Event.Trip }
        ensures drive { trips_drive (meaning D.Drive P.Profile self.old) Event.Trip ≡ false → self.new.drive ≡ self.old.drive }
        ensures profile { self.new.profile ≡ self.old.profile }
    {
        if !self.drive.tripped() {
            self.drive.trip();
            self.memory.stop();
        }
    }

    fn heed(&mut self, event: Event)
        ensures after { meaning D.Drive P.Profile self.new ≡ heeded (meaning D.Drive P.Profile self.old) event }
        ensures drive { trips_drive (meaning D.Drive P.Profile self.old) event ≡ false → self.new.drive ≡ self.old.drive }
        ensures profile { self.new.profile ≡ self.old.profile }
    {
        match (&self.memory.state, event) {
            (
                State::Running(_) | State::Pausing { .. } | State::Holding(_),
                Event::Limit(direction, true),
            ) if self.memory.levels.limits.is_clear(direction) => {
                self.memory.levels.limits.set(direction, true);
                self.memory.halt();
            }
            (_, Event::EStop(true)) if !self.memory.levels.estop => {
                self.memory.levels.estop = true;
                self.memory.halt();
            }
            (_, Event::Limit(direction, on)) => self.memory.levels.limits.set(direction, on),
            (_, Event::EStop(on)) => self.memory.levels.estop = on,
            (_, Event::Trip) => self.trip(),
        }
    }

    // One event, by its code.
    pub fn event(&mut self, code: i32) -> Result<(), Refusal>
        ensures answer { result ≡ event_answer (event_of code) }
        ensures after { meaning D.Drive P.Profile self.new ≡ event_after (meaning D.Drive P.Profile self.old) (event_of code) }
        ensures unknown { is_ok (event_of code) ≡ false → self.new ≡ self.old }
        ensures drive { event_calls (meaning D.Drive P.Profile self.old) (event_of code) ≡ false → self.new.drive ≡ self.old.drive }
        ensures profile { self.new.profile ≡ self.old.profile }
    {
        let event = Event::try_from(code)?;
        self.heed(event);
        Ok(())
    }
}
