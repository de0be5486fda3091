//! Cards as customers hold them: open or closed, each a type of its own, with the calls that each takes.
#![tactic(auto)]

pub mod building;
pub mod closed;
pub mod explaining;
pub mod judging;
pub mod open;
pub mod reading;
mod trial;
