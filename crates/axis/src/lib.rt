// The axis: set-up, blocks, events and ticks, over any drive and any profile.
#![tactic(auto)]

pub mod axis;
pub mod flags;
pub mod memory;
mod numbers;
pub mod order;
pub mod state;
