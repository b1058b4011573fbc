// Runs: calls as values, what they answered, and the law that every run keeps.
#![tactic(auto)]

pub mod call;
pub mod entry;
pub mod operate;
pub mod operation;
