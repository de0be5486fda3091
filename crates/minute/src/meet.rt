//! Whether a kitchen fits a card, and agrees with a run.
ghost use Rattle.std.specs.Prelude.{◌≡◌, ◌<◌, ◌≤◌, length, Decides};
ghost use Rattle.rules.specs.Card.{span_count};
ghost use Rattle.network.specs.Model.{model};
ghost use Rattle.minute.specs.Minutes.{at};
ghost use Rattle.minute.specs.Meets.{track_at, Within, FitsCard, Tells, Agrees};

use crate::playing::Minute;
use crate::position::Position;
use kitchen::interface::Kitchen;
use kitchen::track::Status;
use network::network::Network;
use rules::parts::Span;

/// Whether the kitchen has a span s, with bounds inside those of `span`.
// The number beside the span: the kitchen is asked by it.
fn is_within<K: Kitchen>(kitchen: &K, s: usize, span: &Span) -> bool
    ensures { Decides result ((s < length (K.Kitchen.spans kitchen.now)) × Within span.now.least span.now.most (track_at (K.Kitchen.spans kitchen.now) s)) }
{
    kitchen
        .bounds(s)
        .is_ok_and(|(least, most)| span.least <= least && most <= span.most)
}

/// Whether the kitchen has the card's spans, each within the card's bounds.
pub fn fits_card<K: Kitchen>(network: &Network, kitchen: &K) -> bool
    ensures { Decides result (FitsCard (model network.now.content) (K.Kitchen.spans kitchen.now)) }
{
    let spans = network.spans();
    spans.len() <= kitchen.count()
        && spans
            .iter()
            .enumerate()
            .all(|(s, span)| is_within(kitchen, s, span))
}

/// A span whose start and finish have these minutes has this status before minute t.
fn tells(t: u16, start: Option<u16>, finish: Option<u16>, status: Status) -> bool
    ensures { Decides result (Tells t start finish status) }
{
    match (start, finish, status) {
        (None, _, Status::Cold) => true,
        (Some(a), None, Status::On(e)) => u32::from(a) + u32::from(e) + 1 == u32::from(t),
        (Some(a), Some(c), Status::Done(d)) => u32::from(a) + u32::from(d) == u32::from(c),
        _ => false,
    }
}

impl Minute<'_> {
    /// Whether the kitchen tells a span s that agrees with the position of `span` before this minute.
    fn agrees_on<K: Kitchen>(&self, position: &Position, kitchen: &K, s: usize, span: &Span) -> bool
        ensures { Decides result ((s < length (K.Kitchen.spans kitchen.now)) × Tells self.now.t (at position.now.minutes span.now.start) (at position.now.minutes span.now.finish) (track_at (K.Kitchen.spans kitchen.now) s).status) }
    {
        let Ok(status) = kitchen.status(s) else {
            return false;
        };
        let start = position.get(usize::from(span.start));
        let finish = position.get(usize::from(span.finish));
        tells(self.t, start, finish, status)
    }

    /// Whether the kitchen agrees with the position before this minute.
    pub fn agrees<K: Kitchen>(&self, position: &Position, kitchen: &K) -> bool
        requires { span_count (model self.now.network.now.content) ≤ length (K.Kitchen.spans kitchen.now) }
        ensures { Decides result (Agrees (model self.now.network.now.content) (at position.now.minutes) self.now.t (K.Kitchen.spans kitchen.now)) }
    {
        let spans = self.network.spans();
        spans
            .iter()
            .enumerate()
            .all(|(s, span)| self.agrees_on(position, kitchen, s, span))
    }
}
