//! One minute of a run: whether a kitchen can take part, what it ended, which orders are given, which spans start, and the list of events.
#![tactic(auto)]

pub mod choice;
pub mod decide;
pub mod events;
pub mod hear;
pub mod meet;
pub mod playing;
pub mod position;
pub mod starts;
