// How the axis comes to rest.
ghost use Rattle.std.specs.Prelude.{◌≡◌};
ghost use Rattle.axis.specs.Memories.{memory_means};
ghost use Rattle.axis.specs.Stops.{stopped, completed, rested, eased, plan_ended, waited, kept_going, halted_by_input};

use super::Memory;
use crate::order::DwellRow;
use crate::state::{Kind, State, Travel};

impl Memory {
    // A full stop.
    pub(crate) fn stop(&mut self)
        ensures { memory_means self.new ≡ stopped (memory_means self.old) }
    {
        if let State::Programming = self.state {
            self.table.clear();
        }
        self.state = State::Idle;
        self.flags.invalid = true;
    }

    // A full stop by an input.
    pub(crate) fn halt(&mut self)
        ensures { memory_means self.new ≡ halted_by_input (memory_means self.old) }
    {
        self.flags.input = true;
        self.stop();
    }

    // The end of a move.
    fn complete(&mut self)
        ensures { memory_means self.new ≡ completed (memory_means self.old) }
    {
        self.state = State::Idle;
        self.flags.complete = true;
    }

    // The end of holding, with the drive at a place.
    fn rest(&mut self, place: i32, kind: Kind)
        ensures { memory_means self.new ≡ rested (memory_means self.old) place kind }
    {
        match kind {
            Kind::Single(target) if place == target => self.complete(),
            Kind::Single(target) => self.state = State::Held(target),
            Kind::Blend | Kind::Dwell(_) => self.state = State::Idle,
        }
    }

    // Holding goes on, or ends as soon as nothing is left.
    pub(crate) fn ease(&mut self, done: bool, place: i32, travel: Travel)
        ensures { memory_means self.new ≡ eased (memory_means self.old) done place travel }
    {
        if done {
            self.rest(place, travel.kind);
        } else {
            self.state = State::Holding(travel);
        }
    }

    // The end of a plan.
    fn end(&mut self, kind: Kind)
        ensures { memory_means self.new ≡ plan_ended (memory_means self.old) kind }
    {
        match kind {
            Kind::Dwell(row) if self.table.has_after(row.index) => {
                self.state = State::Pausing {
                    next: DwellRow {
                        index: row.index + 1,
                        ..row
                    },
                    ticks: row.run.dwell,
                };
            }
            Kind::Single(_) | Kind::Blend | Kind::Dwell(_) => self.complete(),
        }
    }

    // A tick of a pause: one tick less to wait.
    pub(crate) fn wait(&mut self)
        ensures { memory_means self.new ≡ waited (memory_means self.old) }
    {
        if let State::Pausing { ticks, .. } = &mut self.state {
            *ticks = ticks.saturating_sub(1);
        }
    }

    // What moves goes on, with the drive at a place.
    pub(crate) fn go_on(&mut self, done: bool, place: i32)
        ensures { memory_means self.new ≡ kept_going self.old.state (memory_means self.old) done place }
    {
        match self.state {
            State::Running(travel) if done => self.end(travel.kind),
            State::Holding(travel) => self.ease(done, place, travel),
            State::Running(_)
            | State::Idle
            | State::Programming
            | State::Pausing { .. }
            | State::Held(_) => {}
        }
    }
}
