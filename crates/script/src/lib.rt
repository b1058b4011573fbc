// Reads a line of a call script from its bytes.
#![tactic(auto)]

pub mod command;
pub mod fault;
pub mod line;
pub mod read;
