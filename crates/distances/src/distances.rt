//! The distances between the points of a card.
ghost use Rattle.std.specs.Prelude.{◌≡◌, ℕ, ◌<◌, ◌&&◌, if◌then◌else◌, None, nat_lt};
ghost use Rattle.network.specs.Model.{model};
ghost use Rattle.walks.specs.Minutes.{of_minutes, absent_minutes, sum, lesser};
ghost use Rattle.walks.specs.Tables.{cell};
ghost use Rattle.walks.specs.Walks.{Best};
ghost use Rattle.distances.specs.Distances.{between};

use crate::weights::given_weights;
use network::network::Network;
use walks::closure::best_walks;
use walks::minutes::Minutes;

/// A weight from each point to each.
#[derive(Clone, Copy, PartialEq, Eq, Debug)]
pub struct Distances {
    pub table: [[Minutes; 32]; 32],
}

/// How many doublings make walks of up to 32 edges.
const DOUBLINGS: usize = 5;

impl Distances {
    /// The best weight over walks of 1 to 32 given plain edges, from each point of a card to each.
    pub fn of(network: &Network) -> Distances
        ensures { (p q : ℕ) → p < (model network.now.content).points → q < (model network.now.content).points → Best sum lesser (between (model network.now.content)) (model network.now.content).points 32 p q (cell of_minutes absent_minutes result.table p q) }
    {
        let edges = given_weights(network);
        let mut table = edges;
        let mut scratch = edges;
        best_walks(
            &edges,
            &mut table,
            &mut scratch,
            network.content.points,
            DOUBLINGS,
        );
        Distances { table }
    }

    /// The weight from a point to another, where there is a walk.
    pub fn get(&self, from: u8, to: u8) -> Option<i32>
        ensures { result ≡ (if nat_lt from 32 && nat_lt to 32 then cell of_minutes absent_minutes self.now.table from to else None) }
    {
        let row = self.table.get(usize::from(from))?;
        row.get(usize::from(to))?.get()
    }
}
