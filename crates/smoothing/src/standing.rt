// Where a profile stands.
ghost use Rattle.std.specs.Prelude.{◌≡◌};
ghost use Rattle.smoothing.specs.Standings.{standing_of};

use profile::traits::Profile;
use std::marker::Model;

// What a profile has gone, in millisteps, and its top.
#[derive(Clone, Copy)]
pub(crate) struct Standing {
    pub(crate) gone: u64,
    pub(crate) top: u32,
}

// No plan goes farther than this.
impl Model for Standing {
    ghost use Rattle.std.specs.Prelude.{◌≤◌};
    ghost use Rattle.smoothing.specs.Standings.{StandingMeans};

    ghost Value = { StandingMeans };

    ghost view = { λ s. record { gone = s.gone; top = s.top } };

    ghost invariant = { λ s. s.gone ≤ 16777214000 };

    ghost inverse = { λ m. record { gone = m.gone; top = m.top } };
}

impl<P: Profile> From<&P> for Standing {
    ghost from_gives = { λ profile standing. standing ≡ standing_of (P.Profile.means profile.now) };

    fn from(profile: &P) -> Standing {
        Standing {
            gone: profile.gone(),
            top: profile.top(),
        }
    }
}
