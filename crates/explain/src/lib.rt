//! Why a card is bad: a list of steps that ends in a negative loop.
#![tactic(auto)]

pub mod explaining;
mod given;
mod given_loops;
mod reductions;
mod relaxes;
mod rounds;
mod search;
mod tables;
mod work;
mod writes;
