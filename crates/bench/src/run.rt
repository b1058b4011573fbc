// A plan, run to its end.
ghost use Rattle.std.specs.Prelude.{◌≡◌, ◌*◌, ◌<◌, ◌≤◌, ◌∷◌, length, drop, None};
ghost use Rattle.profile.specs.Plans.{plan_means, plan_steps, plan_top};
ghost use Rattle.profile.specs.Profiles.{plan_ticks};

use profile::plan::Plan;
use profile::traits::Profile;
use std::fmt;

// What a plan came to: its ticks, the greatest advance of one, the millisteps gone, and a sum over the advances in which their order counts.
#[derive(Clone, Copy, PartialEq, Eq, Debug)]
pub struct Outcome {
    pub ticks: u64,
    pub peak: u32,
    pub gone: u64,
    pub sum: u64,
}

impl Outcome {
    // Writes the number of ticks and then the sum over the advances to the front of `out`, where both have room.
    pub fn tell(&self, out: &mut [u64])
        ensures short { length out.old < 2 → out.new ≡ out.old }
        ensures told { 2 ≤ length out.old → out.new ≡ self.now.ticks ∷ self.now.sum ∷ drop 2 out.old }
    {
        if let Some(front) = out.first_chunk_mut::<2>() {
            *front = [self.ticks, self.sum];
        }
    }
}

impl fmt::Display for Outcome {
    fn fmt<W: fmt::Write>(&self, f: &mut fmt::Formatter<W>) -> fmt::Result {
        let Outcome {
            ticks,
            peak,
            gone,
            sum,
        } = *self;
        write!(f, "{ticks} ticks, peak {peak}, gone {gone}, check {sum}")
    }
}

// Begins the plan and ticks until nothing is left, with a brake after so many ticks, if any. It takes no more ticks than the plan may
// take, and without a brake every millistep of the plan has gone. A `while`: the number of ticks is not known before, and an iterator of
// advances would keep the profile borrowed, which a turn may brake.
pub fn run_plan<P: Profile>(profile: &mut P, plan: Plan, braked: Option<u64>) -> Outcome
    ensures over { (P.Profile.means profile.new).left ≡ 0 }
    ensures gone { braked ≡ None → (P.Profile.means profile.new).gone ≡ 1000 * plan_steps (plan_means plan) }
    ensures soon { result.ticks ≤ plan_ticks (plan_means plan) (P.Profile.means profile.old).lag }
    ensures told { result.gone ≡ (P.Profile.means profile.new).gone }
    ensures peak { result.peak ≤ plan_top (plan_means plan) }
{
    profile.begin(plan);
    let mut ticks: u64 = 0;
    let mut peak = 0;
    let mut sum: u64 = 0;
    while !profile.done() {
        let advance = profile.tick();
        ticks = ticks.saturating_add(1);
        peak = advance.max(peak);
        sum = sum.wrapping_mul(31).wrapping_add(advance as u64);
        if braked == Some(ticks) {
            profile.brake();
        }
    }
    Outcome {
        ticks,
        peak,
        gone: profile.gone(),
        sum,
    }
}
