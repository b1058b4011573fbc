// What a block orders, once it is judged: the numbers that carry it out.
use drive::direction::Direction;
use profile::rates::Rates;
use table::segment::Segment;

// A move to a target at a speed.
#[derive(Clone, Copy)]
pub struct SingleMove {
    pub target: i32,
    pub speed: u32,
    pub rates: Rates,
}

// A run of the table row by row, with a dwell in ticks between rows.
#[derive(Clone, Copy)]
pub struct DwellRun {
    pub rates: Rates,
    pub dwell: u32,
}

// One row of such a run, by its index in the table.
#[derive(Clone, Copy)]
pub struct DwellRow {
    pub run: DwellRun,
    pub index: usize,
}

#[derive(Clone, Copy)]
pub enum Order {
    // No bit rises.
    Nothing,
    // Absolute, Relative or Resume.
    Go(SingleMove),
    Hold,
    Stop,
    Preset(i32),
    // Reset Errors, and whether it clears the trip.
    Reset(bool),
    Program,
    Segment(Segment),
    // Run: all rows as one plan in one direction.
    Blend(Direction, Rates),
    // Run: a plan for each row.
    Dwell(DwellRun),
}
