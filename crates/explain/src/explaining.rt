//! Why a card is bad, as a list of steps.
ghost use Rattle.network.specs.Model.{model};
ghost use Rattle.explain.specs.Explained.{Explained};
ghost use Rattle.explain.specs.Working.{Fresh, Saturated};

use crate::search::Search;
use crate::work::{Stop, Work};
use judge::marking::{Mark, mark_of};
use network::network::Network;
use rules::edges::Step;
use rules::refusal::Refusal;

impl Search<'_> {
    /// Writes steps until one makes a negative loop or the list is full; if neither comes, the card is good.
    fn run(&mut self) -> Result<(), Stop>
        requires { Fresh self.old }
        ensures { Saturated self.old self.new result }
    {
        self.test()?;
        self.saturate()
    }
}

/// Writes why nobody can win on a bad card: steps that end in a negative loop, each but the last to an edge better than all before it.
/// Answers how many. A good card is refused, and so is a list that fills first.
pub fn explain(network: &Network, list: &mut [Step]) -> Result<usize, Refusal>
    ensures { Explained (model network.now.content) list.old list.new result }
{
    if mark_of(network) == Mark::Good {
        return Err(Refusal::CardGood);
    }
    let mut search = Search {
        network,
        list,
        work: Work::load(network),
    };
    match search.run() {
        Ok(()) => Err(Refusal::CardGood),
        Err(Stop::Loop) => Ok(search.work.count),
        Err(Stop::Spent) => Err(Refusal::StepsSpent),
    }
}
