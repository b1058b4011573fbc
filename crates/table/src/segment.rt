// A segment of the table: a distance in steps, clockwise where it is positive, at a speed.
ghost use Rattle.std.specs.Prelude.{◌≡◌};
ghost use Rattle.table.specs.Segments.{way_of, row_of, is_segment};

use drive::direction::Direction;
use drive::position::is_position;
use profile::row::Row;

#[derive(Clone, Copy, PartialEq, Eq, Debug, Default)]
pub struct Segment {
    pub distance: i32,
    pub speed: u32,
}

impl Segment {
    pub fn direction(self) -> Direction
        ensures { result ≡ way_of self }
    {
        Direction::toward(0, self.distance)
    }

    // Whether it may stand in a table for this starting speed.
    pub(crate) fn fits(self, start: u32) -> bool
        ensures { result ≡ is_segment start self }
    {
        self.distance != 0 && is_position(self.distance) && (start..=200_000).contains(&self.speed)
    }
}

// The row of a plan that travels it: its size, whatever its sign.
impl From<Segment> for Row {
    ghost from_gives = { λ segment row. row ≡ row_of segment };

    fn from(segment: Segment) -> Row {
        Row {
            steps: segment.distance.unsigned_abs(),
            speed: segment.speed,
        }
    }
}
