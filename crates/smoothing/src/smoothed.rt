// Smoothing over a profile: what it has gone is the mean of what the profile below had gone after each of its last ticks.
ghost use Rattle.std.specs.Prelude.{◌≡◌};
ghost use Rattle.smoothing.specs.Standings.{standing_of};

use crate::window::Window;
use profile::traits::Profile;

mod calls;

// The newest value of the window is what `below` has gone. The bound is for this invariant, which cites what a profile means.
#[derive(Drop)]
pub struct Smoothed<P: Profile> {
    below: P,
    window: Window,
    ghost in_step: { window.standing ≡ standing_of (P.means below) },
}
