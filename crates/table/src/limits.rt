// The limit switches of the two directions.
ghost use Rattle.std.specs.Prelude.{◌≡◌};
ghost use Rattle.table.specs.Courses.{is_clear, are_clear, with_limit};

use crate::segment::Segment;
use drive::direction::Direction;

// True while on.
#[derive(Clone, Copy, PartialEq, Eq, Debug, Default)]
pub struct Limits {
    pub cw: bool,
    pub ccw: bool,
}

impl Limits {
    // Whether the limit in a direction is off.
    pub fn is_clear(self, direction: Direction) -> bool
        ensures { result ≡ is_clear self direction }
    {
        match direction {
            Direction::Cw => !self.cw,
            Direction::Ccw => !self.ccw,
        }
    }

    // Whether the limit is off in the direction of every row.
    pub fn are_clear(self, rows: &[Segment]) -> bool
        ensures { result ≡ are_clear self rows.now }
    {
        rows.iter().all(|row| self.is_clear(row.direction()))
    }

    // The limit in a direction comes on, or goes off.
    pub fn set(&mut self, direction: Direction, on: bool)
        ensures { self.new ≡ with_limit self.old direction on }
    {
        match direction {
            Direction::Cw => self.cw = on,
            Direction::Ccw => self.ccw = on,
        }
    }
}
