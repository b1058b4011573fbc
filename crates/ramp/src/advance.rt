// The advance of a tick.
ghost use Rattle.std.specs.Prelude.{◌↔◌, ◌+◌, ◌≤◌, IsTrue};
ghost use Rattle.profile.specs.Plans.{plan_means};
ghost use Rattle.ramp.specs.Advances.{Greatest, May};
ghost use Rattle.ramp.specs.Braking.{braking};

use crate::braking::Brake;
use profile::plan::Plan;

// The greatest advance that may be in a row of this speed, with `rest` millisteps to go and the advance `last` before.
pub(crate) fn next_advance(plan: &Plan, row_speed: u32, rest: u64, last: u32) -> u32
    requires row { row_speed ≤ 200000 }
    requires last { last ≤ 200000 }
    ensures { Greatest (May (plan_means plan.now).start (plan_means plan.now).accel (plan_means plan.now).decel row_speed last rest) result }
{
    let slow = row_speed.max(last.saturating_sub(plan.decel()));
    let eased = plan.start().max(last.saturating_add(plan.accel()));
    Brake::from(plan).greatest(slow.min(eased), rest)
}

impl Brake {
    // Whether a speed and the braking from it go at most `rest` millisteps.
    fn stops(self, speed: u32, rest: u64) -> bool
        ensures { IsTrue result ↔ (speed + braking self.start self.decel speed ≤ rest) }
    {
        speed as u64 + self.distance(speed) <= rest
    }

    // The greatest speed up to `limit` that stops in `rest` millisteps: mostly the limit itself. The search for a lower one halves what is
    // left with each turn, and a limit is below 2 to the 18, so 18 turns leave one speed: no tick tries more than 19. It is a loop, since
    // the library's `partition_point` searches a slice.
    fn greatest(self, limit: u32, rest: u64) -> u32
        requires { limit ≤ 200000 }
        ensures { Greatest (λ u. (u ≤ limit) × (u + braking self.start self.decel u ≤ rest)) result }
    {
        if self.stops(limit, rest) {
            return limit;
        }
        let mut low = 0;
        let mut high = limit;
        for _turn in 0..18u32 {
            if low == high {
                return low;
            }
            let middle = low + (high - low).div_ceil(2);
            if self.stops(middle, rest) {
                low = middle;
            } else {
                high = middle - 1;
            }
        }
        low
    }
}
