//! The finishes of a minute.
ghost use Rattle.std.specs.Prelude.{◌≡◌, ◌<◌, ◌≤◌, length};
ghost use Rattle.rules.specs.Card.{span_count};
ghost use Rattle.rules.specs.Game.{heard};
ghost use Rattle.kitchen.specs.Tracks.{is_done};
ghost use Rattle.network.specs.Model.{model};
ghost use Rattle.minute.specs.Minutes.{at};
ghost use Rattle.minute.specs.Meets.{track_at};
ghost use Rattle.minute.specs.Played.{ended};

use crate::playing::Minute;
use crate::position::Position;
use kitchen::interface::Kitchen;
use kitchen::track::Status;

/// Whether the kitchen has ended its span s.
fn has_ended<K: Kitchen>(kitchen: &K, s: usize) -> bool
    requires { s < length (K.Kitchen.spans kitchen.now) }
    ensures { result ≡ is_done (track_at (K.Kitchen.spans kitchen.now) s).status }
{
    matches!(kitchen.status(s), Ok(Status::Done(_)))
}

impl Minute<'_> {
    /// Records the finishes of the spans that the kitchen has ended.
    #[tactic(auto, unfolding(rules::specs::Card::finish_of, rules::specs::Card::span_count))]
    pub(crate) fn record_finishes<K: Kitchen>(&self, position: &mut Position, kitchen: &K)
        requires { span_count (model self.now.network.now.content) ≤ length (K.Kitchen.spans kitchen.now) }
        ensures { at position.new.minutes ≡ heard (model self.now.network.now.content) self.now.t (ended (model self.now.network.now.content) (at position.old.minutes) (K.Kitchen.spans kitchen.now)) (at position.old.minutes) }
    {
        let spans = self.network.spans();
        for (s, span) in spans.iter().enumerate() {
            let finish = usize::from(span.finish);
            if position.get(finish).is_none() && has_ended(kitchen, s) {
                position.set(finish, self.t);
            }
        }
    }
}
