//! Marks: whether the controller can win on a card, and with which horizon.
ghost use Rattle.std.specs.Prelude.{◌≤◌, Decides};
ghost use Rattle.rules.specs.Calls.{with_horizon};
ghost use Rattle.rules.specs.Game.{Good};
ghost use Rattle.network.specs.Model.{model};
ghost use Rattle.judge.specs.Marks.{Marks, Stretched};

use crate::judging::judge;
use network::network::Network;

/// The longest horizon that a card may have.
const LONGEST: u16 = 1440;

/// The mark of a card. (In the field: whether it is dynamically controllable.)
#[derive(Clone, Copy, PartialEq, Eq, Debug)]
pub enum Mark {
    /// The controller can win, whatever the kitchen does.
    Good,
    /// The controller cannot.
    Bad,
}

/// The mark of a card.
pub fn mark_of(network: &Network) -> Mark
    ensures { Marks (model network.now.content) result }
{
    match judge(network) {
        Some(_) => Mark::Good,
        None => Mark::Bad,
    }
}

/// Whether the card would be good with another horizon.
fn is_good_with(network: &Network, horizon: u16) -> bool
    requires { (1 ≤ horizon) × (horizon ≤ 1440) }
    ensures { Decides result (Good (with_horizon (model network.now.content) horizon)) }
{
    mark_of(&network.with_horizon(horizon)) == Mark::Good
}

/// A horizon with which the card would be good, no shorter than its own; or none, where there is none.
/// Goodness grows with the horizon, so that the longest decides.
pub fn stretch(network: &Network) -> Option<u16>
    ensures { Stretched (model network.now.content) result }
{
    let own = network.horizon();
    [own, LONGEST]
        .into_iter()
        .find(|horizon| is_good_with(network, *horizon))
}
