//! The best plain weight between every two points of a card, over walks of given edges.
#![tactic(auto)]

pub mod distances;
pub mod weights;
