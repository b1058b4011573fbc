// Power-up, set-up, and what the axis tells.
ghost use Rattle.std.specs.Prelude.{◌≡◌};
ghost use Rattle.axis.specs.Axes.{meaning, powered_up};

use crate::axis::Axis;
use crate::flags::Flags;
use crate::memory::Memory;
use drive::traits::Drive;
use profile::traits::Profile;

impl<D: Drive, P: Profile> Axis<D, P> {
    // An axis empty of any past, over a drive and a profile.
    pub fn power_up(drive: D, profile: P) -> Self
        ensures means { meaning D.Drive P.Profile result ≡ powered_up (D.Drive.means drive) (P.Profile.means profile) }
        ensures drive { result.drive ≡ drive }
        ensures profile { result.profile ≡ profile }
    {
        Axis {
            drive,
            profile,
            memory: Memory::power_up(),
        }
    }

    // The position: where the drive stands.
    pub fn position(&self) -> i32
        ensures { result ≡ (D.Drive.means self.now.drive).place }
    {
        self.drive.place()
    }

    pub fn drive(&self) -> &D
        ensures { result.now ≡ self.now.drive }
    {
        &self.drive
    }

    pub fn profile(&self) -> &P
        ensures { result.now ≡ self.now.profile }
    {
        &self.profile
    }

    pub fn flags(&self) -> Flags
        ensures { result ≡ self.now.memory.flags }
    {
        self.memory.flags
    }
}
