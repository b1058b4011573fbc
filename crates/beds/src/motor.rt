// A drive as a program shows it.
ghost use Rattle.std.specs.Prelude.{◌≡◌, ℕ, Some, None, Option};
ghost use Rattle.drive.specs.PhaseDrives.{coils_of};

use drive::phase::PhaseDrive;
use drive::pulse::PulseDrive;
use drive::traits::Drive;

pub trait Motor: Drive {
    ghost shown: { Self → Option ℕ };

    // The coil byte, where the drive has coils.
    fn coil_byte(&self) -> Option<u8>
        ensures { result ≡ shown self.now };
}

impl Motor for PulseDrive {
    ghost shown = { λ _. None };

    fn coil_byte(&self) -> Option<u8> {
        None
    }
}

impl Motor for PhaseDrive {
    ghost shown = { λ d. Some (coils_of d) };

    fn coil_byte(&self) -> Option<u8> {
        Some(self.coils())
    }
}
