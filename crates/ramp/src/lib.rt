// Constant acceleration: a profile whose every advance is the greatest that the plan allows.
#![tactic(auto)]

mod advance;
pub mod braking;
mod place;
pub mod ramp;
