// Blocks of ten words, as they come over the wire: pairs, bits, commands, event codes, and the numbers of refusals.
#![tactic(auto)]

pub mod bits;
pub mod command;
pub mod event;
pub mod frame;
pub mod pair;
pub mod refusal;
