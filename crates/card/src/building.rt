//! The calls that build a card. A call that is refused answers why, and changes nothing.
ghost use Rattle.std.specs.Prelude.{◌≡◌};
ghost use Rattle.rules.specs.Calls.{new_place, is_open, is_closed, opens, adds_order, adds_span, adds_tie, closes, reopens, after_call, open_answer, order_answer, span_answer, tie_answer};
ghost use Rattle.network.specs.Model.{model};

use crate::closed::ClosedCard;
use crate::open::OpenCard;
use network::network::Network;
use rules::parts::Tie;
use rules::refusal::Refusal;

impl OpenCard {
    /// A new place: a card of point 0 alone, with a horizon of 1.
    pub fn new() -> OpenCard
        ensures { model result.network.content ≡ new_place }
    {
        OpenCard {
            network: Network::fresh(1),
        }
    }

    /// Makes the card anew, of point 0 alone, with this horizon.
    pub fn open(&mut self, horizon: u16) -> Result<(), Refusal>
        ensures answer { result ≡ open_answer horizon }
        ensures card { is_open (model self.new.network.content) ≡ after_call (opens horizon) (is_open (model self.old.network.content)) }
    {
        self.network.open(horizon)
    }

    /// Adds the next point, an order, and answers its number.
    pub fn add_order(&mut self) -> Result<u8, Refusal>
        ensures answer { result ≡ order_answer (model self.old.network.content) }
        ensures card { is_open (model self.new.network.content) ≡ after_call adds_order (is_open (model self.old.network.content)) }
    {
        self.network.add_order()
    }

    /// Adds the next span and, as its finish, the next point, whose number it answers.
    pub fn add_span(&mut self, start: u8, least: u16, most: u16) -> Result<u8, Refusal>
        ensures answer { result ≡ span_answer (model self.old.network.content) start least most }
        ensures card { is_open (model self.new.network.content) ≡ after_call (adds_span start least most) (is_open (model self.old.network.content)) }
    {
        self.network.add_span(start, least, most)
    }

    /// Adds the next tie, and answers its number.
    pub fn add_tie(&mut self, tie: Tie) -> Result<usize, Refusal>
        ensures answer { result ≡ tie_answer (model self.old.network.content) tie }
        ensures card { is_open (model self.new.network.content) ≡ after_call (adds_tie tie) (is_open (model self.old.network.content)) }
    {
        self.network.add_tie(tie)
    }

    /// Closes the card.
    pub fn close(self) -> ClosedCard
        ensures { is_closed (model result.network.content) ≡ after_call closes (is_open (model self.network.content)) }
    {
        let OpenCard { network } = self;
        ClosedCard { network }
    }

    /// What the card holds.
    // Once for each state: an open and a closed card are types of their own.
    pub fn network(&self) -> &Network
        ensures { result.now ≡ self.now.network }
    {
        &self.network
    }
}

impl ClosedCard {
    /// Opens the card again, as it is.
    pub fn reopen(self) -> OpenCard
        ensures { is_open (model result.network.content) ≡ after_call reopens (is_closed (model self.network.content)) }
    {
        let ClosedCard { network } = self;
        OpenCard { network }
    }

    /// What the card holds.
    // Once for each state: an open and a closed card are types of their own.
    pub fn network(&self) -> &Network
        ensures { result.now ≡ self.now.network }
    {
        &self.network
    }
}
