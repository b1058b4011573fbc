// What a table tells.
ghost use Rattle.std.specs.Prelude.{◌≡◌, slice_get};
ghost use Rattle.table.specs.Tables.{table_means};
ghost use Rattle.table.specs.TablePlans.{row_at};

use super::Table;
use crate::segment::Segment;

impl Table {
    // The starting speed in force.
    pub fn start(&self) -> u32
        ensures { result ≡ (table_means self.now).start }
    {
        self.start
    }

    pub fn is_ready(&self) -> bool
        ensures { result ≡ (table_means self.now).ready }
    {
        self.ready
    }

    pub fn rows(&self) -> &[Segment]
        ensures { result.now ≡ (table_means self.now).rows }
    {
        self.rows.as_slice()
    }

    // Row `i`, if there is one.
    pub fn get(&self, i: usize) -> Option<Segment>
        ensures { result ≡ slice_get (table_means self.now).rows i }
    {
        self.rows().get(i).copied()
    }

    // Row `i`; past the last row, a segment of no step. It stands beside `get`, since it cannot fail: whoever asks for a row's plan is
    // refused by the plan's maker, where an `Option` would ask the same once more.
    pub fn row(&self, i: usize) -> Segment
        ensures { result ≡ row_at (table_means self.now) i }
    {
        self.get(i).unwrap_or_default()
    }
}
