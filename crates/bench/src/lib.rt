// What the benchmark runs: whole plans, tick by tick to their end.
#![tactic(auto)]

pub mod flat;
pub mod run;
