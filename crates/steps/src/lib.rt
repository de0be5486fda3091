//! Edges by number, steps, and the reading of step lists.
#![tactic(auto)]

pub mod given;
pub mod joins;
pub mod prints;
pub mod reads;
