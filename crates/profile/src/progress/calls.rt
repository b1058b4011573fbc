// What a progress does.
ghost use Rattle.std.specs.Prelude.{◌≡◌, min, option_copied};
ghost use Rattle.profile.specs.Plans.{plan_of};
ghost use Rattle.profile.specs.Profiles.{fastest};
ghost use Rattle.profile.specs.Progresses.{progress_means, no_progress, begun_progress, gone_on, asked_for, way_left};

use super::Progress;
use crate::plan::Plan;

impl Progress {
    // Without a plan yet.
    pub fn new() -> Self
        ensures { progress_means result ≡ no_progress }
    {
        Progress {
            plan: None,
            asked: 0,
            gone: 0,
        }
    }

    // Takes a new plan, and asks for all its steps.
    pub fn begin(&mut self, plan: Plan)
        ensures { progress_means self.new ≡ begun_progress plan }
    {
        self.asked = 1000 * plan.steps() as u64;
        self.gone = 0;
        self.plan = Some(plan);
    }

    // Goes on by an advance, or by what is left where that is less, and answers which.
    pub fn go(&mut self, advance: u32) -> u32
        ensures answer { result ≡ min advance (way_left (progress_means self.old)) }
        ensures means { progress_means self.new ≡ gone_on advance (progress_means self.old) }
    {
        let gone = self.left().min(advance as u64);
        self.gone += gone;
        gone as u32
    }

    // Asks for so many millisteps, but for no fewer than have gone and no more than before.
    pub fn ask(&mut self, asked: u64)
        ensures { progress_means self.new ≡ asked_for asked (progress_means self.old) }
    {
        self.asked = asked.min(self.asked).max(self.gone);
    }

    pub fn plan(&self) -> Option<&Plan>
        ensures { option_copied result ≡ (progress_means self.now).plan }
    {
        self.plan.as_ref()
    }

    pub fn gone(&self) -> u64
        ensures { result ≡ (progress_means self.now).gone }
    {
        self.gone
    }

    pub fn asked(&self) -> u64
        ensures { result ≡ (progress_means self.now).asked }
    {
        self.asked
    }

    // The millisteps asked for that have not gone.
    pub fn left(&self) -> u64
        ensures { result ≡ way_left (progress_means self.now) }
    {
        self.asked - self.gone
    }

    // The greatest speed of the plan, 0 before the first.
    pub fn top(&self) -> u32
        ensures { result ≡ fastest (plan_of (progress_means self.now).plan) }
    {
        self.plan().map_or(0, |plan| plan.top())
    }
}
