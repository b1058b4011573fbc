// What the creeping profile does.
ghost use Rattle.std.specs.Prelude.{◌≡◌, ◌+◌, ◌*◌, Some, None};
ghost use Rattle.profile.specs.Plans.{plan_means, plan_steps};
ghost use Rattle.profile.specs.Profiles.{Begun, Ticked, Braked};
ghost use Rattle.profile.specs.Creeping.{creeping, creep_advance};
ghost use Rattle.profile.specs.Creeps.{creep_means};
ghost use Rattle.profile.specs.CreepLaws;

use super::Creep;
use crate::plan::Plan;
use crate::progress::Progress;
use crate::traits::Profile;

impl Creep {
    // Without a plan yet.
    pub fn new() -> Self
        ensures { creep_means result ≡ creeping None 0 0 }
    {
        Creep {
            progress: Progress::new(),
        }
    }
}

impl Profile for Creep {
    ghost means = { creep_means };

    ghost sound = { λ p. CreepLaws.sound p.progress.plan p.progress.asked p.progress.gone p.progress.reached p.progress.within };

    fn begin(&mut self, plan: Plan)
        ensures begun { Begun (creep_means self.old) (plan_means plan) (creep_means self.new) }
        ensures exactly { creep_means self.new ≡ creeping (Some (plan_means plan)) (1000 * plan_steps (plan_means plan)) 0 }
    {
        self.progress.begin(plan);
    }

    // By the starting speed, or by what is left where that is less.
    fn tick(&mut self) -> u32
        ensures ticked { Ticked (creep_means self.old) result (creep_means self.new) }
        ensures advance { result ≡ creep_advance (creep_means self.old) }
        ensures exactly { creep_means self.new ≡ creeping (creep_means self.old).plan (creep_means self.old).asked ((creep_means self.old).gone + result) }
    {
        let start = self.progress.plan().map_or(0, |plan| plan.start());
        self.progress.go(start)
    }

    // Asks for no more than has gone.
    fn brake(&mut self)
        ensures braked { Braked (creep_means self.old) (creep_means self.new) }
        ensures exactly { creep_means self.new ≡ creeping (creep_means self.old).plan (creep_means self.old).gone (creep_means self.old).gone }
    {
        self.progress.ask(0);
    }

    // These three are the progress's, as of a ramp: a trait between `Profile` and the two would be longer than what it saves.
    fn gone(&self) -> u64 {
        self.progress.gone()
    }

    fn asked(&self) -> u64 {
        self.progress.asked()
    }

    fn top(&self) -> u32 {
        self.progress.top()
    }
}
