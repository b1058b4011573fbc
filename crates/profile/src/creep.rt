// The creeping profile: the starting speed all the way.
use crate::progress::Progress;

mod calls;

#[derive(Drop)]
pub struct Creep {
    progress: Progress,
}
