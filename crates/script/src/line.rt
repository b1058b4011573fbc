// What a line of a call script says.
use bed::kind::BedKind;

// What a line says: nothing, what the bed is and how it stands at first, or a call of the axis.
#[derive(Drop)]
pub enum Line {
    Blank,
    Bed(BedKind),
    At(i32),
    Tripped,
    Setup(i32),
    Block(Vec<i16>),
    Event(i32),
    Tick(u32),
    // A reading into a buffer of so many words.
    Reading(u32),
}
