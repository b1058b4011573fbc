// Positions, drives and the steps that are due to a drive.
#![tactic(auto)]

pub mod direction;
pub mod fault;
pub mod output;
pub mod phase;
pub mod position;
pub mod pulse;
pub mod send;
pub mod stepper;
pub mod token;
pub mod traits;
