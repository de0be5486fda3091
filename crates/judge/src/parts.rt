//! The parts of a card, as the judge reads them.
ghost use Rattle.std.specs.Prelude.{◌<◌};
ghost use Rattle.rules.specs.Card.{span_count, tie_count};
ghost use Rattle.network.specs.Model.{model};
ghost use Rattle.judge.specs.Closing.{IsSpan, IsTie};

use network::network::Network;
use rules::parts::{Span, Tie};

// Functions of their own: what the judge needs of a span or a tie is proved here once.

/// Span s.
pub(crate) fn span_of(network: &Network, s: usize) -> Span
    requires { s < span_count (model network.now.content) }
    ensures { IsSpan (model network.now.content) s result }
{
    network.spans()[s]
}

/// Tie i.
pub(crate) fn tie_of(network: &Network, i: usize) -> Tie
    requires { i < tie_count (model network.now.content) }
    ensures { IsTie (model network.now.content) i result }
{
    network.ties()[i]
}
