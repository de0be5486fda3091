//! Why a closed card is bad.
ghost use Rattle.network.specs.Model.{model};
ghost use Rattle.explain.specs.Explained.{Explained};
ghost use Rattle.card.specs.Promises.{Built};

use crate::closed::ClosedCard;
use rules::edges::Step;
use rules::refusal::Refusal;

impl ClosedCard {
    /// Writes why nobody can win on a bad card: steps that end in a negative loop, each but the last to an edge better than all before it.
    /// Answers how many; a good card is refused, and so is a list that fills first.
    pub fn explain(&self, list: &mut [Step]) -> Result<usize, Refusal>
        ensures list { Explained (model self.now.network.content) list.old list.new result }
        ensures built { Built (model self.now.network.content) (λ card. Explained card list.old list.new result) }
    {
        explain::explaining::explain(&self.network, list)
    }
}
