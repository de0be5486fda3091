//! A minute of a run, played.
ghost use Rattle.std.specs.Prelude.{◌≡◌, ℕ, ◌+◌, ◌≤◌, length, None as Nothing};
ghost use Rattle.rules.specs.Card.{span_count};
ghost use Rattle.network.specs.Model.{model};
ghost use Rattle.minute.specs.Minutes.{at};
ghost use Rattle.minute.specs.Meets.{Ready};
ghost use Rattle.minute.specs.Standing.{Standing};
ghost use Rattle.minute.specs.Events.{events, written};
ghost use Rattle.minute.specs.Played.{meaning, Heard, Played};

use crate::position::Position;
use judge::closure::Closure;
use kitchen::interface::Kitchen;
use network::network::Network;

/// A minute of a run on a card, by its number.
// That the kitchen has the card's spans is a clause of the methods: the kitchen is the caller's, and lent anew each minute.
#[derive(Clone, Copy)]
pub struct Minute<'a> {
    pub network: &'a Network,
    pub t: u16,
}

impl Minute<'_> {
    /// The kitchen's move: in minute 0 it waits, and point 0 is given; later it advances, and its finishes are recorded.
    fn hear<K: Kitchen>(&self, position: &mut Position, kitchen: &mut K)
        requires enough { span_count (model self.now.network.now.content) ≤ length (K.Kitchen.spans kitchen.old) }
        requires nothing { self.now.t ≡ 0 → (p : ℕ) → at position.old.minutes p ≡ Nothing }
        ensures { Heard (meaning K.Kitchen.spans K.Kitchen.starts K.Kitchen.advances) (model self.now.network.now.content) self.now.t (at position.old.minutes) (at position.new.minutes) kitchen.old kitchen.new }
    {
        if self.t == 0 {
            position.set(0, 0);
        } else {
            kitchen.advance();
            self.record_finishes(position, kitchen);
        }
    }

    /// Plays the minute, writes its events, and answers how many.
    pub fn play<K: Kitchen>(
        &self,
        closure: &Closure,
        position: &mut Position,
        kitchen: &mut K,
        list: &mut [u8],
    ) -> usize
        requires stands { Standing (model self.now.network.now.content) closure.now self.now.t (at position.old.minutes) }
        requires ready { Ready (model self.now.network.now.content) self.now.t (at position.old.minutes) (K.Kitchen.spans kitchen.old) (length list.old) }
        ensures stands { Standing (model self.now.network.now.content) closure.now (self.now.t + 1) (at position.new.minutes) }
        ensures played { Played (meaning K.Kitchen.spans K.Kitchen.starts K.Kitchen.advances) (model self.now.network.now.content) self.now.t (at position.old.minutes) (at position.new.minutes) kitchen.old kitchen.new }
        ensures list { list.new ≡ written list.old 0 (events (model self.now.network.now.content) (at position.new.minutes) self.now.t) }
        ensures count { result ≡ length (events (model self.now.network.now.content) (at position.new.minutes) self.now.t) }
    {
        self.hear(position, kitchen);
        self.decide(closure, position);
        self.start_spans(position, kitchen);
        self.write_events(position, list)
    }
}
