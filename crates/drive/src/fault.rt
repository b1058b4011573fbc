// Why a drive refuses.
#[derive(Clone, Copy, PartialEq, Eq, Debug)]
pub enum DriveFault {
    // The drive is tripped.
    Tripped,
    // More steps at once than this kind of drive goes.
    TooFar,
    // The place asked for is no position.
    NoPosition,
}
