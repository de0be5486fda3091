//! Running a closed card against a kitchen, minute by minute.
#![tactic(auto)]

pub mod begin;
pub mod play;
pub mod run;
#[cfg(test)]
mod tests;
pub mod whole;
