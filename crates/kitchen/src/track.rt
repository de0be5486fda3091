//! One span as a kitchen has it: its bounds, and how far it is.

/// How far a span is.
#[derive(Clone, Copy, PartialEq, Eq, Debug, Default)]
pub enum Status {
    /// Not started.
    #[default]
    Cold,
    /// Started this many minutes ago, and not ended.
    On(u16),
    /// Ended, this many minutes after its start.
    Done(u16),
}

/// The bounds of a span in minutes, and its status.
#[derive(Clone, Copy, PartialEq, Eq, Debug, Default)]
pub struct Track {
    pub least: u16,
    pub most: u16,
    pub status: Status,
}
