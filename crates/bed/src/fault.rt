// Why a line of a script is refused.
use thiserror::Error;

// The first fault of a line, from left to right. Each program adds the commands that it knows.
#[derive(Clone, Copy, PartialEq, Eq, Debug, Error)]
pub enum LineFault {
    #[error("unknown command")]
    UnknownCommand,
    #[error("unknown drive (pulse or phase)")]
    UnknownDrive,
    #[error("unknown profile (creep, ramp, or one of them after at most two smooth LENGTH)")]
    UnknownProfile,
    #[error("a word is missing")]
    MissingWord,
    #[error("a word too many")]
    ExtraWord,
    #[error("not a number that can stand here")]
    NotANumber,
}
