//! What every kitchen is: the interface, and the meaning that each of its functions keeps.
ghost use Rattle.std.specs.Prelude.{◌≡◌, ℕ, List, length, Result};
ghost use Rattle.rules.specs.declared.refusal.Refusal.{Refusal};
ghost use Rattle.kitchen.specs.declared.track.Track.{Track};
ghost use Rattle.kitchen.specs.Kitchens.{Lawful, Bounds, Tells, Started, Advanced};

use crate::track::Status;
use rules::refusal::Refusal;

/// Spans with fixed bounds, which are started, and end at an advance when the kitchen decides it within the bounds.
/// (In the field: the environment.)
pub trait Kitchen {
    // The spans with their bounds, and how far each is.
    ghost spans: { Self → List Track };

    // What a start, by its span and its answer, makes of this kitchen beside what every kitchen owes.
    ghost starts: { Self → ℕ → Result (Unit {0}) Refusal → Self → Type 0 };

    // What an advance makes of this kitchen beside what every kitchen owes: which spans end early.
    ghost advances: { Self → Self → Type 0 };

    /// How many spans there are.
    fn count(&self) -> usize
        ensures { result ≡ length (spans self.now) };

    /// The least and the most of a span.
    fn bounds(&self, span: usize) -> Result<(u16, u16), Refusal>
        ensures { Bounds (spans self.now) span result };

    /// How far a span is.
    fn status(&self, span: usize) -> Result<Status, Refusal>
        ensures { Tells (spans self.now) span result };

    /// Starts a cold span. `rule` is what every kitchen owes, `own` what this one does.
    fn start(&mut self, span: usize) -> Result<(), Refusal>
        ensures rule { Started (spans self.old) span result (spans self.new) }
        ensures own { starts self.old span result self.new };

    /// One minute more for each span that is on.
    fn advance(&mut self)
        ensures rule { Advanced (spans self.old) (spans self.new) }
        ensures own { advances self.old self.new };

    // At most eight spans, with bounds and statuses within their ranges.
    ghost keeps: { (k : Self) → Lawful (spans k) };
}
