// What a table does.
ghost use Rattle.std.specs.Prelude.{◌≡◌, ◌+◌, length, if◌then◌else◌, is_ok, nat_lt};
ghost use Rattle.table.specs.Tables.{table_means, emptied, start_for, has_room, added, taken, closed};

use super::Table;
use crate::fault::TableFault;
use crate::segment::Segment;
use arrayvec::ArrayVec;

impl Table {
    #[tactic(auto, using(crate::proofs::SegmentLaws::no_segments))]
    // Without rows, for this starting speed; 0 counts as 1, and more than 200,000 as that.
    pub fn new(start: u32) -> Table
        ensures { table_means result ≡ emptied (start_for start) }
    {
        Table {
            start: start.clamp(1, 200_000),
            rows: ArrayVec::new(),
            ready: false,
        }
    }

    // How many rows there are.
    fn len(&self) -> usize
        ensures { result ≡ length (table_means self.now).rows }
    {
        self.rows.len()
    }

    // Whether another row comes after row `i`.
    pub fn has_after(&self, i: usize) -> bool
        ensures { result ≡ nat_lt (i + 1) (length (table_means self.now).rows) }
    {
        self.len().saturating_sub(i) > 1
    }

    // Whether one more row has room.
    pub fn has_room(&self) -> bool
        ensures { result ≡ has_room (table_means self.now) }
    {
        !self.rows.is_full()
    }

    #[tactic(auto, using(crate::proofs::SegmentLaws::no_segments))]
    pub fn clear(&mut self)
        ensures { table_means self.new ≡ emptied (table_means self.old).start }
    {
        self.rows.clear();
        self.ready = false;
    }

    #[tactic(auto, using(crate::proofs::SegmentLaws::segments_more, crate::proofs::SegmentLaws::more_enough))]
    // Adds a row after the rows already there.
    pub fn add(&mut self, segment: Segment) -> Result<(), TableFault>
        ensures taken { result ≡ taken (table_means self.old) segment }
        ensures after { table_means self.new ≡ (if is_ok result then added (table_means self.old) segment else table_means self.old) }
    {
        if !self.has_room() {
            return Err(TableFault::Full);
        }
        if !segment.fits(self.start) {
            return Err(TableFault::Unfit);
        }
        self.rows.push(segment);
        Ok(())
    }

    // Ends a programming: fewer than two rows are no table.
    pub fn close(&mut self)
        ensures { table_means self.new ≡ closed (table_means self.old) }
    {
        if self.len() < 2 {
            self.clear();
        } else {
            self.ready = true;
        }
    }
}
