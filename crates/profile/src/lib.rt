// Plans, and the profiles that turn a plan into advances, one a tick.
#![tactic(auto)]

pub mod creep;
pub mod extent;
pub mod fault;
pub mod list;
pub mod plan;
pub mod progress;
pub mod rates;
pub mod row;
pub mod traits;
