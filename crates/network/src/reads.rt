//! What can be asked of a network.
ghost use Rattle.std.specs.Prelude.{◌≡◌};
ghost use Rattle.rules.specs.Card.{span_count, tie_count, span_at, tie_at, is_finish};
ghost use Rattle.network.specs.Model.{model};

use crate::network::Network;
use rules::parts::{Span, Tie};

impl Network {
    pub fn horizon(&self) -> u16
        ensures { result ≡ (model self.now.content).horizon }
    {
        self.content.horizon
    }

    /// How many points there are.
    pub fn points(&self) -> usize
        ensures { result ≡ (model self.now.content).points }
    {
        self.content.points
    }

    /// The spans, in rising number.
    pub fn spans(&self) -> &[Span]
        ensures { result.now ≡ (model self.now.content).spans }
    {
        &self.content.spans[..self.content.spanned]
    }

    /// The ties, in rising number.
    pub fn ties(&self) -> &[Tie]
        ensures { result.now ≡ (model self.now.content).ties }
    {
        &self.content.ties[..self.content.tied]
    }

    pub fn span_count(&self) -> usize
        ensures { result ≡ span_count (model self.now.content) }
    {
        self.content.spanned
    }

    pub fn tie_count(&self) -> usize
        ensures { result ≡ tie_count (model self.now.content) }
    {
        self.content.tied
    }

    pub fn span(&self, s: usize) -> Option<Span>
        ensures { result ≡ span_at (model self.now.content) s }
    {
        self.spans().get(s).copied()
    }

    pub fn tie(&self, i: usize) -> Option<Tie>
        ensures { result ≡ tie_at (model self.now.content) i }
    {
        self.ties().get(i).copied()
    }

    /// Whether a point is the finish of a span; every other point is an order.
    pub fn is_finish(&self, point: u8) -> bool
        ensures { result ≡ is_finish (model self.now.content) point }
    {
        self.spans().iter().any(|span| span.finish == point)
    }
}
