// A plan of a move.
ghost use Rattle.std.specs.Prelude.{◌≡◌, ◌≤◌, true, length, take};
ghost use Rattle.profile.specs.Rows.{are_rows, steps_of, top_of};

use crate::rates::Rates;
use crate::row::Row;

mod calls;
mod make;
mod rows;

// The first `count` of `rows` are the plan's. A `RowList` in their place was tried: then a function that takes a ramp out of a `Result`
// gets no proof, since its model lies too deep in the type argument.
// `steps` and `top` are kept so that nothing goes over the rows again.
#[derive(Clone, Copy)]
pub struct Plan {
    start: u32,
    rates: Rates,
    rows: [Row; 16],
    count: usize,
    steps: u32,
    top: u32,
    ghost starts: { 1 ≤ start },
    ghost gains: { (1 ≤ rates.accel) × (rates.accel ≤ 5000) },
    ghost slows: { (1 ≤ rates.decel) × (rates.decel ≤ 5000) },
    ghost some: { 1 ≤ length (take count rows) },
    ghost few: { count ≤ 16 },
    ghost each: { are_rows start (take count rows) ≡ true },
    ghost summed: { steps ≡ steps_of (take count rows) },
    ghost fastest: { top ≡ top_of (take count rows) },
    ghost near: { steps ≤ 16777214 },
}
