//! Playing the minutes of a run.
ghost use Rattle.std.specs.Prelude.{length, MatchResult};
ghost use Rattle.network.specs.Model.{model};
ghost use Rattle.minute.specs.Minutes.{at};
ghost use Rattle.minute.specs.Meets.{Ready};
ghost use Rattle.minute.specs.Played.{meaning};
ghost use Rattle.run.specs.Runs.{stage, live_at};
ghost use Rattle.run.specs.Plays.{Fault, Plays};
ghost use Rattle.run.specs.Whole.{HistoryOf};

use crate::run::Run;
use kitchen::interface::Kitchen;
use minute::meet::fits_card;
use minute::playing::Minute;
use minute::position::Position;
use rules::refusal::Refusal;

/// The places that a list of events needs.
const PLACES: usize = 32;

/// Whether this minute of a live run can be played; if not, the first reason that applies.
fn check_ready<K: Kitchen>(
    minute: &Minute,
    position: &Position,
    kitchen: &K,
    places: usize,
) -> Result<(), Refusal>
    ensures { MatchResult result (λ _. Ready (model minute.now.network.now.content) minute.now.t (at position.now.minutes) (K.Kitchen.spans kitchen.now) places) (Fault (live_at (model minute.now.network.now.content) minute.now.t (at position.now.minutes)) (K.Kitchen.spans kitchen.now) places) }
{
    if minute.t > minute.network.horizon() {
        return Err(Refusal::HorizonPlayed);
    }
    if places < PLACES {
        return Err(Refusal::ShortBuffer);
    }
    if !fits_card(minute.network, kitchen) {
        return Err(Refusal::KitchenUnfit);
    }
    if !minute.agrees(position, kitchen) {
        return Err(Refusal::KitchenDisagrees);
    }
    Ok(())
}

impl Run {
    /// Plays the next minute with a kitchen that fits and agrees, lists its events, and answers how many.
    pub fn play<K: Kitchen>(&mut self, kitchen: &mut K, list: &mut [u8]) -> Result<usize, Refusal>
        ensures plays { Plays (meaning K.Kitchen.spans K.Kitchen.starts K.Kitchen.advances) self.old self.new kitchen.old kitchen.new list.old list.new result }
        ensures history { HistoryOf (stage self.old) → HistoryOf (stage self.new) }
    {
        let closure = self.closure.as_ref().ok_or(Refusal::Barred)?;
        let minute = Minute {
            network: self.card.network(),
            t: self.next,
        };
        check_ready(&minute, &self.position, kitchen, list.len())?;
        let count = minute.play(closure, &mut self.position, kitchen, list);
        self.next += 1;
        Ok(count)
    }
}
