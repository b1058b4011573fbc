// An entry of a journal: what a call answered, and what was to be seen of the axis then.
use crate::call::Answer;

#[derive(Drop)]
pub struct Entry {
    pub answer: Answer,
    // The ten status words.
    pub words: [i16; 10],
    // Where the drive stands, and whether it is tripped.
    pub place: i32,
    pub tripped: bool,
    // What has gone of the profile's plan, and what is asked for, in millisteps.
    pub gone: u64,
    pub asked: u64,
}
