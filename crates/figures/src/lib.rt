// The worked figures of the bed: one proof about the rules. The crate `tests` runs the same figures on the code.
#![tactic(auto)]

pub mod worked;
