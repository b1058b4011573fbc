// The constant-acceleration profile.
ghost use Rattle.std.specs.Prelude.{◌+◌, ◌≤◌};
ghost use Rattle.profile.specs.Plans.{plan_of};
ghost use Rattle.profile.specs.Profiles.{fastest};
ghost use Rattle.ramp.specs.Places.{IsPlace};
ghost use Rattle.ramp.specs.Ramping.{braking_of, rows_in};

use crate::place::Place;
use profile::progress::Progress;

mod calls;

// `last` is the last advance of the plan; there is always room to brake from it. `place` is at the row that held the next millistep at
// the last tick, so that no tick looks through all rows.
#[derive(Drop)]
pub struct Ramp {
    progress: Progress,
    last: u32,
    place: Place,
    ghost slow: { last ≤ fastest (plan_of progress.plan) },
    ghost stops: { progress.gone + braking_of (plan_of progress.plan) last ≤ progress.asked },
    ghost placed: { IsPlace (rows_in progress.plan) progress.gone place },
}
