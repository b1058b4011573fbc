// A line of the input: a plan, and how it is run.
ghost use Rattle.std.specs.Prelude.{◌≡◌, Some, None, MatchResult};
ghost use Rattle.profile.specs.Plans.{plan_fault};
ghost use Rattle.trials.specs.Trials.{plan_asked};

use arrayvec::ArrayVec;
use bench::run::{Outcome, run_plan};
use profile::fault::PlanFault;
use profile::plan::Plan;
use profile::rates::Rates;
use profile::row::Row;
use ramp::ramp::Ramp;
use smoothing::smoothed::Smoothed;
use std::alloc::{AllocError, Global};
use text::number::natural;
use text::text::Words;

// The numbers of a line; a word that is no number counts as 0, and more than 37 words are left out. `tools/trials.py`, which writes the
// lines, writes none such. They find room in the array, and nothing is taken from the heap.
fn numbers(alloc: Global, text: &[u8]) -> Result<ArrayVec<u32, 37>, AllocError> {
    Words::of(text)
        .take(37)
        .map(|word| natural(word).unwrap_or(0))
        .collect(alloc)
}

// The smoothing's length, if there is a smoothing, the numbers of a plan, and the tick after which it is braked, if it is.
#[derive(Drop)]
pub struct Trial {
    length: Option<u32>,
    start: u32,
    rates: Rates,
    braked: Option<u32>,
    rows: ArrayVec<Row, 16>,
}

impl Trial {
    // A line that ends early goes on by zeros, up to its rows; a last number that is half a row is left out.
    pub fn of(alloc: Global, text: &[u8]) -> Result<Trial, AllocError> {
        let numbers = numbers(alloc, text)?;
        let number = |place: usize| numbers.get(place).copied().unwrap_or(0);
        let above_zero = |place: usize| Some(number(place)).filter(|n| *n != 0);
        let (pairs, _) = numbers.get(5..).unwrap_or(&[]).as_chunks::<2>();
        let rows = pairs
            .iter()
            .map(|&[steps, speed]| Row { steps, speed })
            .collect(alloc)?;
        Ok(Trial {
            length: above_zero(0),
            start: number(1),
            rates: Rates {
                accel: number(2),
                decel: number(3),
            },
            braked: above_zero(4),
            rows,
        })
    }

    // What its plan comes to, or the first reason why its numbers make none.
    pub fn run(&self) -> Result<Outcome, PlanFault>
        ensures { MatchResult result (λ _. plan_fault (plan_asked self.now) ≡ None) (λ why. plan_fault (plan_asked self.now) ≡ Some why) }
    {
        let plan = Plan::new(self.start, self.rates, self.rows.as_slice())?;
        let braked = self.braked.map(u64::from);
        Ok(match self.length {
            None => run_plan(&mut Ramp::new(), plan, braked),
            Some(length) => run_plan(
                &mut Smoothed::new(Ramp::new(), length as usize),
                plan,
                braked,
            ),
        })
    }
}
