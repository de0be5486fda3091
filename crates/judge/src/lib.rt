//! The judge of a card: whether the controller can win, with the tables by which it does.
#![tactic(auto)]

mod begins;
mod chains;
pub mod closure;
pub mod judging;
pub mod marking;
mod parts;
mod reductions;
mod relaxation;
mod tables;
pub mod target;
