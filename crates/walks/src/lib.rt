//! Best weights over walks, once for every kind of weight: minutes, and pairs of a plain and a wait part.
#![tactic(auto)]

pub mod closure;
pub mod minutes;
pub mod plain_wait;
pub mod table;
pub mod target;
#[cfg(test)]
mod tests;
pub mod weight;
