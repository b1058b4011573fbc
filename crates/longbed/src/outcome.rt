// What the calls of a script came to.
use axis::flags::Flags;
use runs::entry::Entry;

// How the axis stands at the end. The coil byte is there where the drive has coils.
#[derive(Clone, Copy)]
pub struct End {
    pub position: i32,
    pub place: i32,
    pub coils: Option<u8>,
    pub flags: Flags,
}

// All calls were made.
#[derive(Drop)]
pub struct Finished {
    pub journal: Vec<Entry>,
    pub end: End,
}

// There was no memory for all calls: the journal is of those that were made.
#[derive(Drop)]
pub struct Interrupted {
    pub journal: Vec<Entry>,
}
