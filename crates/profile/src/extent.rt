// What rows come to.
ghost use Rattle.std.specs.Prelude.{◌≡◌};
ghost use Rattle.profile.specs.Rows.{steps_of, top_of};

use crate::row::Row;

// All the steps of some rows, and the greatest of their speeds.
#[derive(Clone, Copy, PartialEq, Eq, Debug)]
pub struct Extent {
    pub steps: u128,
    pub top: u32,
}

// One loop over the rows, a form that the rules of the project ask for: it adds up the steps and finds the greatest speed.
pub fn measure(rows: &[Row]) -> Extent
    ensures steps { result.steps ≡ steps_of rows.now }
    ensures top { result.top ≡ top_of rows.now }
{
    let mut steps: u128 = 0;
    let mut top = 0;
    for row in rows {
        steps += row.steps as u128;
        top = row.speed.max(top);
    }
    Extent { steps, top }
}
