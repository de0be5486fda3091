//! The line of an event: how a minute, what happened, a point and its name are printed.
#![tactic(auto)]

pub mod event;
#[cfg(test)]
mod tests;
pub mod write;
