//! Why a command is not done, in the words that the script gets for an answer.
use rules::refusal::Refusal;
use std::alloc::AllocError;
use std::{fmt, io};
use thiserror::Error;

/// The state that does not take a command.
#[derive(Clone, Copy, Debug, Error)]
pub enum NotNow {
    #[error("not now (the card is open)")]
    CardOpen,
    #[error("not now (the card is closed)")]
    CardClosed,
    #[error("not now (the card is in a run)")]
    CardRunning,
    #[error("not now (the kitchen rests twice)")]
    RestsTwice,
}

#[derive(Debug, Drop, Error)]
pub enum CommandError {
    /// A known command with a missing, malformed or additional word.
    #[error("unreadable")]
    Unreadable,
    #[error("unknown")]
    Unknown,
    #[error(transparent)]
    NotNow(#[from] NotNow),
    #[error("refused {}", Numbered(*.0))]
    Refused(#[from] Refusal),
    #[error(transparent)]
    Memory(#[from(alloc)] AllocError),
    #[error(transparent)]
    Output(#[from] io::Error),
}

/// A refusal in print: its number, the place of an unlawful step, and words.
#[derive(Clone, Copy)]
struct Numbered(Refusal);

impl fmt::Display for Numbered {
    fn fmt<W: fmt::Write>(&self, f: &mut fmt::Formatter<W>) -> fmt::Result {
        let refusal = self.0;
        let number = refusal.number();
        match refusal {
            Refusal::StepUnlawful(place) => write!(f, "{number} at {place} ({refusal})"),
            _ => write!(f, "{number} ({refusal})"),
        }
    }
}
