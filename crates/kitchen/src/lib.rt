//! Kitchens: what starts spans and decides when they end.
#![tactic(auto)]

mod bounded;
pub mod contrary;
pub mod either;
pub mod interface;
pub mod noted;
mod rest;
pub mod resting;
mod row;
mod statuses;
#[cfg(test)]
mod tests;
pub mod track;
