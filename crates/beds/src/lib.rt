// The drives and profiles of the beds that a script can name.
#![tactic(auto)]

pub mod choice;
pub mod motor;
pub mod shape;
