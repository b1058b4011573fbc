// The state of the axis.
ghost use Rattle.std.specs.Prelude.{◌≡◌};
ghost use Rattle.axis.specs.Questions.{programs, is_held};
ghost use Rattle.axis.specs.Readings.{is_moving, moves};

use crate::order::DwellRow;
use drive::direction::Direction;

#[derive(Clone, Copy)]
pub enum State {
    Idle,
    Programming,
    // A plan is in motion.
    Running(Travel),
    // Between two rows of a dwell move: the row that comes next, and the ticks still to wait.
    Pausing { next: DwellRow, ticks: u32 },
    // A plan is coming to rest.
    Holding(Travel),
    // A single move at rest on its way to this target.
    Held(i32),
}

// The plan in motion: its direction, and the move that it belongs to.
#[derive(Clone, Copy)]
pub struct Travel {
    pub direction: Direction,
    pub kind: Kind,
}

#[derive(Clone, Copy)]
pub enum Kind {
    // A move of one plan to this target.
    Single(i32),
    // All rows of the table as one plan.
    Blend,
    // This row of the table, as a plan of its own.
    Dwell(DwellRow),
}

impl State {
    pub(crate) fn programs(self) -> bool
        ensures { result ≡ programs self }
    {
        matches!(self, State::Programming)
    }

    pub(crate) fn is_held(self) -> bool
        ensures { result ≡ is_held self }
    {
        matches!(self, State::Held(_))
    }

    // Whether a plan is in motion.
    pub(crate) fn is_moving(self) -> bool
        ensures { result ≡ is_moving self }
    {
        matches!(self, State::Running(_) | State::Holding(_))
    }

    // Whether one is in motion in a direction.
    pub(crate) fn moves(self, direction: Direction) -> bool
        ensures { result ≡ moves direction self }
    {
        match self {
            State::Running(travel) | State::Holding(travel) => direction == travel.direction,
            State::Idle | State::Programming | State::Pausing { .. } | State::Held(_) => false,
        }
    }
}
