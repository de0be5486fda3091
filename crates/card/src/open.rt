//! An open card: what building calls change.
ghost use Rattle.std.specs.Prelude.{◌≡◌, ◌≤◌};

use network::network::Network;

/// A card that takes openings, orders, spans and ties. It holds at most 96 ties, so that a place for one on trial is spare.
#[derive(Drop)]
pub struct OpenCard {
    pub(crate) network: Network,
    ghost room: { network.content.tied ≤ 96 },
}
