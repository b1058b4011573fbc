// An axis whose calls stand as bytes and whose answers are words: what the benchmark's exports take and write. Nothing here allocates.
#![tactic(auto)]

pub mod call;
pub mod numbers;
pub mod run;
mod shown;
