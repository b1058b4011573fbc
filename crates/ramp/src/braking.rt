// The braking distance: how far a speed runs on, falling by the deceleration each tick until it is at most the starting speed.
ghost use Rattle.std.specs.Prelude.{◌≡◌, ℕ, ◌+◌, ◌*◌, ◌/◌, ◌<◌, ◌≤◌};
ghost use Rattle.profile.specs.Plans.{plan_means};
ghost use Rattle.ramp.specs.Braking.{braking, BrakingRule};

use profile::plan::Plan;

// The braking distance of a speed in a plan, in millisteps.
pub fn braking_distance(plan: &Plan, speed: u32) -> u64
    ensures distance { result ≡ braking (plan_means plan.now).start (plan_means plan.now).decel speed }
    ensures rule { (u : ℕ) → BrakingRule (plan_means plan.now).start (plan_means plan.now).decel u }
{
    Brake::from(plan).distance(speed)
}

// What a plan brakes by: its starting speed and its deceleration.
#[derive(Clone, Copy)]
pub(crate) struct Brake {
    start: u32,
    decel: u32,
    ghost slows: { 0 < decel },
}

impl From<&Plan> for Brake {
    ghost from_gives = { λ plan brake. (brake.start ≡ (plan_means plan.now).start) × (brake.decel ≡ (plan_means plan.now).decel) };

    fn from(plan: &Plan) -> Brake {
        Brake {
            start: plan.start(),
            decel: plan.decel(),
        }
    }
}

impl Brake {
    // The braking distance of a speed. In tick i the speed is down by i decelerations, so n ticks come to n speeds less 1 + 2 + .. + n
    // decelerations.
    pub(crate) fn distance(self, speed: u32) -> u64
        ensures { result ≡ braking self.start self.decel speed }
    {
        let n = self.falls(speed);
        n * speed as u64 - self.decel as u64 * (n * (n + 1) / 2)
    }

    // The ticks of a braking: the falls to the start, but no more than there is speed to take whole, since a tick at 0 goes nowhere.
    fn falls(self, speed: u32) -> u64
        ensures few { result ≤ speed }
        ensures sum { braking self.start self.decel speed + self.decel * (result * (result + 1) / 2) ≡ result * speed }
    {
        let all = speed.saturating_sub(self.start).div_ceil(self.decel);
        all.min(speed / self.decel) as u64
    }
}
