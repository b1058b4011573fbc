// Why a line of a script is not read.
ghost use Rattle.std.specs.Prelude.{◌≡◌};
ghost use Rattle.script.specs.declared.fault.ReadFault.TheVariants as fault;

use bed::fault::LineFault;
use std::alloc::AllocFailed;
use thiserror::Error;

// The line's own fault, or no memory for what it says.
#[derive(Clone, Copy, PartialEq, Eq, Debug, Error)]
pub enum ReadFault {
    #[error("{0}")]
    Line(LineFault),
    #[error("no memory for it")]
    NoMemory,
}

// By hand, since a derived `From` has no contract: it would be unknown which fault a `?` of the reading hands up.
impl From<LineFault> for ReadFault {
    ghost from_gives = { λ e r. r ≡ fault.Line e };

    fn from(fault: LineFault) -> ReadFault {
        ReadFault::Line(fault)
    }
}

impl<T: Drop> From<AllocFailed<T>> for ReadFault {
    ghost from_gives = { λ _ r. r ≡ fault.NoMemory };

    fn from(_fault: AllocFailed<T>) -> ReadFault {
        ReadFault::NoMemory
    }
}
