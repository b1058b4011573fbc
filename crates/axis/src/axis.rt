// The axis: a drive, a profile, and what the axis keeps of its own.
use crate::memory::Memory;

mod answer;
mod carry;
mod event;
mod judge;
mod power;
mod reading;
mod setup;
mod tick;

// A call of the whole axis may touch its drive and its profile, so its contract says which of them it leaves; what touches neither is a
// call of the memory.
#[derive(Drop)]
pub struct Axis<D, P> {
    drive: D,
    profile: P,
    memory: Memory,
}
