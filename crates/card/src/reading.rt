//! Steps on a closed card: reading a list, and the edge that a next step would make.
ghost use Rattle.std.specs.Prelude.{◌≡◌, length};
ghost use Rattle.rules.specs.Steps.{known};
ghost use Rattle.network.specs.Model.{model};
ghost use Rattle.steps.specs.Reading.{Makes, ReadAs};
ghost use Rattle.card.specs.Promises.{PassingTells};

use crate::closed::ClosedCard;
use rules::edges::{Edge, Step};
use rules::refusal::Refusal;

impl ClosedCard {
    /// Reads a list of steps: it passes, or is refused for its first unlawful step, or else for want of a closing loop.
    /// A list that passes shows that nobody can win on the card.
    pub fn read(&self, steps: &[Step]) -> Result<(), Refusal>
        ensures answer { ReadAs (model self.now.network.content) steps.now result }
        ensures tells { PassingTells (model self.now.network.content) result }
    {
        steps::reads::read(&self.network, steps)
    }

    // The letter is a number, as a step keeps it.
    /// The edge that a step with this letter, left and right makes after these steps; none if no edge makes it lawful.
    pub fn next_edge(&self, steps: &[Step], letter: u8, left: u32, right: u32) -> Option<Edge>
        ensures { Makes (model self.now.network.content) (known (model self.now.network.content) steps.now (length steps.now)) letter left right result }
    {
        steps::reads::next_edge(&self.network, steps, letter, left, right)
    }
}
