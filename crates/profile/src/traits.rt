// A profile turns a plan into advances in millisteps, one a tick.
ghost use Rattle.std.specs.Prelude.{◌≡◌, ◌==◌};
ghost use Rattle.profile.specs.Plans.{plan_means};
ghost use Rattle.profile.specs.Profiles.{ProfileMeans, Sound, Begun, Ticked, Braked, fastest};

use crate::plan::Plan;

pub trait Profile {
    // Its plan, the millisteps asked for and gone, the ticks left, and its lag in ticks.
    ghost means: { Self → ProfileMeans };

    // Takes a new plan.
    fn begin(&mut self, plan: Plan)
        ensures begun { Begun (means self.old) (plan_means plan) (means self.new) };

    // Goes on by one tick, and answers the advance.
    fn tick(&mut self) -> u32
        ensures ticked { Ticked (means self.old) result (means self.new) };

    // Comes to rest early.
    fn brake(&mut self)
        ensures braked { Braked (means self.old) (means self.new) };

    fn gone(&self) -> u64
        ensures { result ≡ (means self.now).gone };

    fn asked(&self) -> u64
        ensures { result ≡ (means self.now).asked };

    fn top(&self) -> u32
        ensures { result ≡ fastest (means self.now).plan };

    // Whether nothing is left.
    fn done(&self) -> bool
        ensures { result ≡ ((means self.now).left == 0) }
    {
        self.gone() == self.asked()
    }

    ghost sound: { (p : Self) → Sound (means p) };
}
