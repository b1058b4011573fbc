// The table of segments.
ghost use Rattle.std.specs.Prelude.{◌≡◌, ◌≤◌, true, length};
ghost use Rattle.table.specs.Segments.{are_segments, is_enough};

use crate::segment::Segment;
use arrayvec::ArrayVec;

mod calls;
mod plans;
mod tells;

// The rows of the latest programming, for the starting speed in force. A table is ready once its programming was closed with at
// least two rows. What it means is said by `table_means`: a model in its place would save a word in each clause, and bring an `impl`
// with an invariant where four ghost fields stand.
#[derive(Drop)]
pub struct Table {
    start: u32,
    rows: ArrayVec<Segment, 16>,
    // Whether the programming of the rows was closed: a fact of its own, since the same rows may stand there before. An enum around
    // the rows would hold them in each of its variants, and one of two variants without values would be a `bool` by another name.
    ready: bool,
    ghost starts: { (1 ≤ start) × (start ≤ 200000) },
    ghost few: { length rows.items ≤ 16 },
    ghost each: { are_segments start rows.items ≡ true },
    ghost enough: { is_enough ready (length rows.items) ≡ true },
}
