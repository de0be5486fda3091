//! A closed card: what can be judged, explained, read and run.
ghost use Rattle.std.specs.Prelude.{◌≤◌};

use network::network::Network;

/// A card that takes no change until it is opened again.
#[derive(Drop)]
pub struct ClosedCard {
    pub(crate) network: Network,
    ghost room: { network.content.tied ≤ 96 },
}
