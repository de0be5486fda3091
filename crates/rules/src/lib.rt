//! What must be believed of timing cards: their parts, edges and refusals, and what is proved of them. The definitions stand in specs/.
#![tactic(auto)]

pub mod edges;
pub mod numbers;
pub mod parts;
pub mod refusal;
pub mod theorems;
