// How a plan comes about.
ghost use Rattle.std.specs.Prelude.{◌≡◌};
ghost use Rattle.profile.specs.Plans.{Made};

use super::Plan;
use super::rows::{are_rows, in_places};
use crate::extent::measure;
use crate::fault::PlanFault;
use crate::rates::Rates;
use crate::row::Row;

impl Plan {
    // A plan of these rows, or the first reason why there is none. Start, rates and rows are passed one by one: a struct of them would be
    // a plan without its bounds.
    pub fn new(start: u32, rates: Rates, rows: &[Row]) -> Result<Plan, PlanFault>
        ensures { Made (record { start = start; accel = rates.accel; decel = rates.decel; rows = rows.now }) result }
    {
        if start < 1 {
            return Err(PlanFault::Start);
        }
        if !(1..=5000).contains(&rates.accel) {
            return Err(PlanFault::Acceleration);
        }
        if !(1..=5000).contains(&rates.decel) {
            return Err(PlanFault::Deceleration);
        }
        if rows.is_empty() || rows.len() > 16 {
            return Err(PlanFault::RowCount);
        }
        if !are_rows(start, rows) {
            return Err(PlanFault::Row);
        }
        let all = measure(rows);
        if all.steps > 16_777_214 {
            return Err(PlanFault::Length);
        }
        Ok(Plan {
            start,
            rates,
            rows: in_places(rows),
            count: rows.len(),
            steps: all.steps as u32,
            top: all.top,
        })
    }
}
