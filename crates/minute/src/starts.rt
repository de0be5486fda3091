//! The starts of a minute.
ghost use Rattle.std.specs.Prelude.{◌≡◌, ℕ, ◌<◌, ◌≤◌, true, length};
ghost use Rattle.rules.specs.Card.{span_count};
ghost use Rattle.kitchen.specs.declared.track.Status.TheVariants.{Cold};
ghost use Rattle.network.specs.Model.{model};
ghost use Rattle.minute.specs.Minutes.{at, is_at};
ghost use Rattle.minute.specs.Meets.{track_at};
ghost use Rattle.minute.specs.Played.{meaning, starting, Starts};

use crate::playing::Minute;
use crate::position::Position;
use kitchen::interface::Kitchen;

impl Minute<'_> {
    /// Whether a point happens in this minute.
    pub(crate) fn happens(&self, position: &Position, p: u8) -> bool
        ensures { result ≡ is_at self.now.t (at position.now.minutes p) }
    {
        position.get(usize::from(p)) == Some(self.t)
    }

    /// Starts the spans whose start happens in this minute.
    #[tactic(auto, unfolding(rules::specs::Card::start_of, rules::specs::Card::span_count))]
    pub(crate) fn start_spans<K: Kitchen>(&self, position: &Position, kitchen: &mut K)
        requires enough { span_count (model self.now.network.now.content) ≤ length (K.Kitchen.spans kitchen.old) }
        requires cold { (s : ℕ) → s < span_count (model self.now.network.now.content) → starting (model self.now.network.now.content) (at position.now.minutes) self.now.t s ≡ true → (track_at (K.Kitchen.spans kitchen.old) s).status ≡ Cold }
        ensures { Starts (meaning K.Kitchen.spans K.Kitchen.starts K.Kitchen.advances) (starting (model self.now.network.now.content) (at position.now.minutes) self.now.t) (span_count (model self.now.network.now.content)) kitchen.old kitchen.new }
    {
        let spans = self.network.spans();
        for (s, span) in spans.iter().enumerate() {
            if self.happens(position, span.start) {
                // A cold span's start is not refused.
                let _ = kitchen.start(s);
            }
        }
    }
}
