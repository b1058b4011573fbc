// The table of segments, and the plans and courses that its rows make.
#![tactic(auto)]

pub mod course;
pub mod fault;
pub mod limits;
pub mod segment;
pub mod table;
