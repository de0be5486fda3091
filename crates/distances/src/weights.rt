//! The given plain edges as a table of weights.
ghost use Rattle.std.specs.Prelude.{◌≡◌, ℕ};
ghost use Rattle.rules.specs.Steps.{given};
ghost use Rattle.network.specs.Model.{model};
ghost use Rattle.walks.specs.Minutes.{of_minutes, absent_minutes, lesser};
ghost use Rattle.walks.specs.Tables.{cell};
ghost use Rattle.distances.specs.Distances.{Near, weight_of, Holds};

use network::network::Network;
use rules::edges::{Edge, Kind};
use steps::given::{given_count, given_edge};
use walks::minutes::Minutes;
use walks::table::{put_weight, weight_at};
use walks::weight::Weight;

/// Notes an edge in the table, if it is plain and lighter than what stands there.
// A table as the walks take it.
fn note(table: &mut [[Minutes; 32]; 32], edge: Edge)
    requires { Near 32 edge }
    ensures { (p q : ℕ) → cell of_minutes absent_minutes table.new p q ≡ lesser (cell of_minutes absent_minutes table.old p q) (weight_of edge p q) }
{
    if edge.kind == Kind::Plain {
        let p = usize::from(edge.source);
        let q = usize::from(edge.target);
        let lighter = weight_at(&table[p], q).choose(Minutes::of(edge.weight as i16));
        put_weight(table, p, q, lighter);
    }
}

/// The lightest given plain edge from each point to each.
pub fn given_weights(network: &Network) -> [[Minutes; 32]; 32]
    ensures { Holds result (given (model network.now.content)) }
{
    let mut table = [[Minutes::absent(); 32]; 32];
    // A number: an edge of a card is worked out from it.
    for number in 0..given_count(network) {
        if let Some(edge) = given_edge(network, number) {
            note(&mut table, edge);
        }
    }
    table
}
