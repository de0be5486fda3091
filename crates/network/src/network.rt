//! The content of a card with what every card keeps, whatever its state.
ghost use Rattle.network.specs.Kept.{Counts, Lengths, SpansLast, SpansLead, SpansRise, TiesJoin, TiesNear};

use crate::content::Content;

/// A content that building calls can have made, or that one more tie, on trial, can have made of such a one.
#[derive(Clone, Copy)]
pub struct Network {
    pub content: Content,
    ghost counts: { Counts content },
    ghost lengths: { Lengths content },
    ghost last: { SpansLast content },
    ghost lead: { SpansLead content },
    ghost rise: { SpansRise content },
    ghost joined: { TiesJoin content },
    ghost near: { TiesNear content },
}
