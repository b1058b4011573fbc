// A drive, with what it shows of its kind.
use drive::direction::Direction;
use drive::phase::PhaseDrive;
use drive::pulse::PulseDrive;
use drive::traits::Drive;

pub trait Shown: Drive {
    // The direction line of a pulse drive, 1 clockwise and -1 counterclockwise, and the coil byte of a phase drive.
    fn shown(&self) -> i32;
}

impl Shown for PulseDrive {
    fn shown(&self) -> i32 {
        match self.line() {
            Direction::Cw => 1,
            Direction::Ccw => -1,
        }
    }
}

impl Shown for PhaseDrive {
    fn shown(&self) -> i32 {
        self.coils() as i32
    }
}
