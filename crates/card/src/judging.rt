//! Marks of a closed card: its own, that with a tie more, and a horizon with which it would be good.
ghost use Rattle.std.specs.Prelude.{◌≡◌};
ghost use Rattle.network.specs.Model.{model};
ghost use Rattle.judge.specs.Marks.{Marks, Stretched};
ghost use Rattle.card.specs.Promises.{Built, Tried};

use crate::closed::ClosedCard;
use crate::trial::Trial;
use judge::marking::{Mark, mark_of};
use network::builds::check_among;
use network::network::Network;
use rules::parts::Tie;
use rules::refusal::Refusal;

impl ClosedCard {
    /// The mark of the card: good exactly if the controller can win.
    pub fn check(&self) -> Mark
        ensures mark { Marks (model self.now.network.content) result }
        ensures built { Built (model self.now.network.content) (λ card. Marks card result) }
    {
        mark_of(&self.network)
    }

    /// The mark that the card would have with a tie more. The card stays as it is, also if the tie is refused.
    pub fn try_tie(&mut self, tie: Tie) -> Result<Mark, Refusal>
        ensures mark { Tried (model self.old.network.content) tie result }
        ensures built { Built (model self.old.network.content) (λ card. Tried card tie result) }
        ensures kept { self.new.network.content ≡ self.old.network.content }
    {
        let at = self.network.content.tied;
        let old = self.network.content.ties[at];
        let trial = Trial {
            content: &mut self.network.content,
            old,
        };
        trial.content.ties[at] = tie;
        check_among(trial.content.points, tie)?;
        let network = Network::on_trial(&*trial.content);
        Ok(mark_of(&network))
    }

    /// A horizon from the card's own to 1,440 with which it would be good; none if there is none.
    pub fn stretch(&self) -> Option<u16>
        ensures horizon { Stretched (model self.now.network.content) result }
        ensures built { Built (model self.now.network.content) (λ card. Stretched card result) }
    {
        judge::marking::stretch(&self.network)
    }
}
