// What smoothing does.
ghost use Rattle.std.specs.Prelude.{◌≡◌, ℕ, ◌+◌, ◌-◌, ◌≤◌, true, replicate};
ghost use Rattle.profile.specs.Plans.{plan_means};
ghost use Rattle.profile.specs.Profiles.{Begun, Ticked, Braked};
ghost use Rattle.smoothing.specs.Lengths.{length_for};
ghost use Rattle.smoothing.specs.Smoothing.{kept_over, length_over, smooth_means};
ghost use Rattle.smoothing.specs.Windows.{pushed};
ghost use Rattle.smoothing.specs.SmoothLaws.{sound_smooth};
ghost use Rattle.smoothing.specs.WindowLaws.{kept_keeps};

use super::Smoothed;
use crate::standing::Standing;
use crate::window::Window;
use profile::plan::Plan;
use profile::traits::Profile;

impl<P: Profile> Smoothed<P> {
    // Over the last `length` ticks, 1 to 64: 0 counts as 1, and more as 64, which the ring sees to; a type for a length would hand that on
    // and no more. `below` may be under way: at first every value kept is what it has gone.
    #[inline(always)]
    pub fn new(below: P, length: usize) -> Smoothed<P>
        ensures below { result.below ≡ below }
        ensures kept { kept_over result ≡ replicate (length_for length) (P.Profile.means below).gone }
        ensures gone { (smooth_means result).gone ≡ (P.Profile.means below).gone }
        ensures lag { (smooth_means result).lag ≡ (P.Profile.means below).lag + (length_for length - 1) }
    {
        let window = Window::new(length, Standing::from(&below));
        Smoothed { below, window }
    }

    pub fn below(&self) -> &P
        ensures { result.now ≡ self.now.below }
    {
        &self.below
    }

    // How many values it keeps.
    pub fn length(&self) -> usize
        ensures length { result ≡ length_over self.now }
        ensures within { (1 ≤ result) × (result ≤ 64) }
    {
        self.window.kept.len()
    }
}

impl<P: Profile> Profile for Smoothed<P> {
    ghost means = { smooth_means };

    ghost sound = { λ s. sound_smooth (P.Profile.means s.below) (P.Profile.sound s.below) s.window.kept (kept_keeps (P.Profile.means s.below) s.window s.in_step) };

    fn begin(&mut self, plan: Plan)
        ensures begun { Begun (smooth_means self.old) (plan_means plan) (smooth_means self.new) }
        ensures below { Begun (P.Profile.means self.old.below) (plan_means plan) (P.Profile.means self.new.below) }
        ensures kept { kept_over self.new ≡ replicate (length_over self.old) 0 }
    {
        self.below.begin(plan);
        self.window.refill(Standing::from(&self.below));
    }

    // Its time over that of a tick below does not grow with the length: one value goes in and one out, and the push makes the only
    // division.
    fn tick(&mut self) -> u32
        ensures ticked { Ticked (smooth_means self.old) result (smooth_means self.new) }
        ensures below { (advance : ℕ) × Ticked (P.Profile.means self.old.below) advance (P.Profile.means self.new.below) }
        ensures kept { kept_over self.new ≡ pushed (P.Profile.means self.new.below).gone (kept_over self.old) }
    {
        self.below.tick();
        self.window.push(Standing::from(&self.below))
    }

    fn brake(&mut self)
        ensures braked { Braked (smooth_means self.old) (smooth_means self.new) }
        ensures below { Braked (P.Profile.means self.old.below) (P.Profile.means self.new.below) }
        ensures kept { kept_over self.new ≡ kept_over self.old }
    {
        self.below.brake();
    }

    fn gone(&self) -> u64 {
        self.window.mean()
    }

    fn asked(&self) -> u64 {
        self.below.asked()
    }

    fn top(&self) -> u32 {
        self.below.top()
    }
}
