//! The content of a card, in whatever state: its parts by number, and the building of it.
#![tactic(auto)]

pub mod builds;
pub mod content;
pub mod network;
pub mod reads;
