// What the phase drive does.
ghost use Rattle.std.specs.Prelude.{◌≡◌, ◌<◌};
ghost use Rattle.drive.specs.Drives.{at_rest};
ghost use Rattle.drive.specs.PhaseDrives.{phase_means, phase_of, coils_of, turned_phase};
ghost use Rattle.std.proofs.Common.{rules};

use super::{Phase, PhaseDrive};
use crate::output::Output;
use crate::stepper::Stepper;

// The coil byte of each phase.
const COILS: [u8; 8] = [1, 5, 4, 6, 2, 10, 8, 9];

impl Output for Phase {
    const G: u32 = 20;

    ghost G = { 20 };

    ghost moved = { turned_phase };

    ghost bounded = { Prim.search rules };

    fn move_by(&mut self, n: i32) {
        self.number = (self.number as i64 + n as i64).rem_euclid(8) as u8;
    }
}

impl PhaseDrive {
    // At place 0, not tripped, in phase 0.
    pub fn new() -> Self
        ensures means { phase_means result ≡ at_rest }
        ensures phase { phase_of result ≡ 0 }
    {
        Stepper::at_rest(Phase { number: 0 })
    }

    // The phase, 0 to 7.
    pub fn phase(&self) -> u8
        ensures phase { result ≡ phase_of self.now }
        ensures bound { result < 8 }
    {
        self.output().number
    }

    // The byte that the coils are given.
    pub fn coils(&self) -> u8
        ensures { result ≡ coils_of self.now }
    {
        COILS[self.output().number as usize]
    }
}
