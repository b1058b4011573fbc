// What the constant-acceleration profile does.
ghost use Rattle.std.specs.Prelude.{◌≡◌, ◌+◌, ◌*◌, Some, None};
ghost use Rattle.profile.specs.Plans.{plan_means, plan_steps};
ghost use Rattle.profile.specs.Profiles.{Begun, Ticked, Braked};
ghost use Rattle.ramp.specs.Ramping.{braking_of, ramping};
ghost use Rattle.ramp.specs.Ramps.{ramp_means, last_of, Advanced};
ghost use Rattle.ramp.specs.RampLaws;

use super::Ramp;
use crate::advance::next_advance;
use crate::braking::braking_distance;
use crate::place::Place;
use profile::plan::Plan;
use profile::progress::Progress;
use profile::traits::Profile;

impl Ramp {
    // Without a plan yet.
    pub fn new() -> Self
        ensures means { ramp_means result ≡ ramping None 0 0 0 }
        ensures last { last_of result ≡ 0 }
    {
        Ramp {
            progress: Progress::new(),
            last: 0,
            place: Place::default(),
        }
    }

    // The last advance of the plan, 0 before its first tick.
    pub fn last(&self) -> u32
        ensures { result ≡ last_of self.now }
    {
        self.last
    }
}

impl Profile for Ramp {
    ghost means = { ramp_means };

    ghost sound = { λ p. RampLaws.sound p.progress.plan p.progress.asked p.progress.gone p.last p.progress.reached p.progress.within };

    fn begin(&mut self, plan: Plan)
        ensures begun { Begun (ramp_means self.old) (plan_means plan) (ramp_means self.new) }
        ensures exactly { ramp_means self.new ≡ ramping (Some (plan_means plan)) (1000 * plan_steps (plan_means plan)) 0 0 }
        ensures last { last_of self.new ≡ 0 }
    {
        self.progress.begin(plan);
        self.last = 0;
        self.place = Place::default();
    }

    #[inline(always)]
    fn tick(&mut self) -> u32
        ensures ticked { Ticked (ramp_means self.old) result (ramp_means self.new) }
        ensures advanced { Advanced self.old result self.new }
    {
        let Some(plan) = self.progress.plan() else {
            return 0;
        };
        let rest = self.progress.left();
        if rest == 0 {
            return 0;
        }
        // A copy: with `self.place` changed where it stands, it is not proved that a tick with nothing left leaves the same value.
        let mut place = self.place;
        let row_speed = place.speed_after(plan.rows(), self.progress.gone());
        let advance = next_advance(plan, row_speed, rest, self.last);
        self.place = place;
        self.last = advance;
        self.progress.go(advance)
    }

    fn brake(&mut self)
        ensures braked { Braked (ramp_means self.old) (ramp_means self.new) }
        ensures exactly { let m = ramp_means self.old in ramp_means self.new ≡ ramping m.plan (m.gone + braking_of m.plan (last_of self.old)) m.gone (last_of self.old) }
        ensures last { last_of self.new ≡ last_of self.old }
    {
        if let Some(plan) = self.progress.plan() {
            let asked = self.progress.gone() + braking_distance(plan, self.last);
            self.progress.ask(asked);
        }
    }

    // These three are the progress's, as of a creep: a trait between `Profile` and the two would be longer than what it saves.
    fn gone(&self) -> u64 {
        self.progress.gone()
    }

    fn asked(&self) -> u64 {
        self.progress.asked()
    }

    fn top(&self) -> u32 {
        self.progress.top()
    }
}
