// Where the rows of a table lead.
ghost use Rattle.std.specs.Prelude.{◌≡◌};
ghost use Rattle.table.specs.Courses.{goes_to, leg_end, stays_on};

use crate::segment::Segment;
use drive::position::is_position;

// Whether a move from one place to another goes at least one step and ends at a position.
pub fn goes_to(from: i32, to: i32) -> bool
    ensures { result ≡ goes_to from to }
{
    from != to && is_position(to)
}

// Where a row from a place ends, if it goes at least one step and ends at a position.
fn leg_end(from: i32, row: Segment) -> Option<i32>
    ensures { result ≡ leg_end from row.distance }
{
    from.checked_add(row.distance)
        .filter(|end| goes_to(from, *end))
}

// Whether every row, one after the other from a place, goes at least one step and ends at a position.
pub fn stays_on(from: i32, rows: &[Segment]) -> bool
    ensures { result ≡ stays_on from rows.now }
{
    rows.iter()
        .try_fold(from, |at, row| leg_end(at, *row))
        .is_some()
}
