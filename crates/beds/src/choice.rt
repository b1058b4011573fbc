// A bed's drive and profile, chosen by what a script says of them.
ghost use Rattle.std.specs.Prelude.{◌≡◌, ℕ};
ghost use Rattle.drive.specs.Drives.{DriveMeans, at_rest};
ghost use Rattle.profile.specs.Profiles.{ProfileMeans};
ghost use Rattle.beds.specs.Choices.{Fresh, Shape, reach_of, lag_of, lag_with, smoothed_lag, smoothed_shape, shape_with, shape_of};
ghost use Rattle.smoothing.specs.Lengths.{length_for};
ghost use Rattle.smoothing.specs.Smoothing.{smooth_means, length_over};

use crate::motor::Motor;
use crate::shape::Shaped;
use bed::kind::{BaseProfile, BedKind, DriveKind, ProfileKind, Smoothings};
use drive::phase::PhaseDrive;
use drive::pulse::PulseDrive;
use profile::creep::Creep;
use profile::traits::Profile;
use ramp::ramp::Ramp;
use smoothing::smoothed::Smoothed;

// Something to be done over a drive and a profile, whatever their kinds.
pub trait OnBed: Sized {
    type Output;

    // What it comes to, over a drive of some reach and a profile of some shape, by what the drive and the profile mean.
    ghost Comes: { Self → ℕ → DriveMeans → Shape → ProfileMeans → Self.Output → Type 0 };

    fn run<D: Motor + Drop, P: Shaped + Drop>(self, drive: D, profile: P) -> Self::Output
        ensures { Comes self D.Drive.G (D.Drive.means drive) (P.Shaped.shape profile) (P.Profile.means profile) result };
}

fn smooth<P: Shaped>(below: P, length: u32) -> Smoothed<P>
    ensures fresh { (lag : ℕ) → Fresh lag (P.Profile.means below) → Fresh (smoothed_lag lag length) (smooth_means result) }
    ensures shape { smoothed_shape (length_over result) (P.Shaped.shape result.below) ≡ smoothed_shape (length_for length) (P.Shaped.shape below) }
{
    Smoothed::new(below, length as usize)
}

// Over this drive and this profile, smoothed so often.
fn on_base<D: Motor + Drop, P: Shaped + Drop, T: OnBed>(
    drive: D,
    base: P,
    smoothings: Smoothings,
    task: T,
) -> T::Output
    requires { Fresh 0 (P.Profile.means base) }
    ensures { (m : ProfileMeans) × Fresh (lag_with smoothings) m × T.Comes task D.Drive.G (D.Drive.means drive) (shape_with smoothings (P.Shaped.shape base)) m result }
{
    match smoothings {
        Smoothings::Unsmoothed => task.run(drive, base),
        Smoothings::Once(length) => task.run(drive, smooth(base, length)),
        Smoothings::Twice(outer, inner) => task.run(drive, smooth(smooth(base, inner), outer)),
    }
}

// Over this drive and a new profile of this kind.
fn on_drive<D: Motor + Drop, T: OnBed>(drive: D, kind: ProfileKind, task: T) -> T::Output
    ensures { (m : ProfileMeans) × Fresh (lag_of kind) m × T.Comes task D.Drive.G (D.Drive.means drive) (shape_of kind) m result }
{
    match kind.base {
        BaseProfile::Creep => on_base(drive, Creep::new(), kind.smoothings, task),
        BaseProfile::Ramp => on_base(drive, Ramp::new(), kind.smoothings, task),
    }
}

// Over a new drive and a new profile of the kinds that a bed has.
pub fn on_bed<T: OnBed>(bed: BedKind, task: T) -> T::Output
    ensures { (m : ProfileMeans) × Fresh (lag_of bed.profile) m × T.Comes task (reach_of bed.drive) at_rest (shape_of bed.profile) m result }
{
    match bed.drive {
        DriveKind::Pulse => on_drive(PulseDrive::new(), bed.profile, task),
        DriveKind::Phase => on_drive(PhaseDrive::new(), bed.profile, task),
    }
}
