//! The beginning and the end of a run, and what can be asked of it.
ghost use Rattle.std.specs.Prelude.{◌≡◌};
ghost use Rattle.network.specs.Model.{model};
ghost use Rattle.run.specs.Runs.{stage, Begun, asked};
ghost use Rattle.run.specs.Whole.{HistoryOf};

use crate::run::Run;
use card::closed::ClosedCard;
use judge::judging::judge;
use minute::position::Position;
use network::network::Network;
use rules::refusal::Refusal;

impl Run {
    /// Begins a run of a closed card, and uses it up: live if the card is good, and barred if it is bad.
    pub fn begin(card: ClosedCard) -> Run
        ensures card { result.card ≡ card }
        ensures begun { Begun (model card.network.content) (stage result) }
        ensures history { HistoryOf (stage result) }
    {
        let closure = judge(card.network());
        Run {
            card,
            closure,
            next: 0,
            position: Position::new(),
        }
    }

    /// Ends the run, and gives back the card.
    pub fn end(self) -> ClosedCard
        ensures { result ≡ self.card }
    {
        let Run { card, .. } = self;
        card
    }

    /// The minute of a point, or none while it has not happened.
    pub fn ask(&self, point: u8) -> Result<Option<u16>, Refusal>
        ensures { result ≡ asked (stage self.now) point }
    {
        let point = usize::from(point);
        if point >= self.card.network().points() {
            return Err(Refusal::NoPoint);
        }
        Ok(self.position.get(point))
    }

    /// Whether the run is live; one that is not is barred.
    pub fn is_live(&self) -> bool
        ensures { result ≡ (stage self.now).live }
    {
        self.closure.is_some()
    }

    /// What the card holds.
    pub fn network(&self) -> &Network
        ensures { result.now ≡ self.now.card.network }
    {
        self.card.network()
    }
}
