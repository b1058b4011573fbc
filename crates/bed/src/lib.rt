// The words of a script's line that name a bed, numbers among them, and the faults of a line.
#![tactic(auto)]

pub mod fault;
pub mod kind;
pub mod word;
