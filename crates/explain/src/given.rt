//! The table of given edges, with which the search begins.
ghost use Rattle.std.specs.Prelude.{◌≡◌, suc, ◌<◌, length, slice_index_or};
ghost use Rattle.rules.specs.Steps.{given, no_edge};
ghost use Rattle.network.specs.Model.{model};
ghost use Rattle.explain.specs.Working.{column_at, GivenEntry, Loaded};

use crate::tables::{head, width};
use crate::work::{Best, Work};
use network::network::Network;
use rules::edges::{Edge, Kind};
use steps::given::{given_count, given_edge};

/// The column of an edge; none for lower and all-most edges.
fn column(network: &Network, edge: Edge) -> Option<usize>
    ensures { result ≡ column_at (model network.now.content) edge.kind edge.target }
{
    match edge.kind {
        Kind::Plain => Some(usize::from(edge.target)),
        Kind::Wait(s) => Some(network.points() + usize::from(s)),
        Kind::Lower(_) | Kind::AllMost => None,
    }
}

/// The given edge of this number as an entry of the table, with its row and column; none for lower and all-most edges.
pub(crate) fn given_entry(network: &Network, number: usize) -> Option<(usize, usize, Best)>
    requires { number < length (given (model network.now.content)) }
    ensures { GivenEntry (model network.now.content) (slice_index_or (given (model network.now.content)) number no_edge) number result }
{
    let edge = given_edge(network, number)?;
    let x = column(network, edge)?;
    let entry = Best {
        weight: edge.weight,
        number: number as u32,
    };
    Some((usize::from(edge.source), x, entry))
}

impl Work {
    /// The table where no edge is known.
    fn empty(network: &Network) -> Work
        ensures table { Loaded (model network.now.content) result.best 0 }
        ensures count { result.count ≡ 0 }
    {
        let none = Best {
            weight: i32::from(network.horizon()) + 1,
            number: 0,
        };
        let mut work = Work {
            best: [[none; 40]; 32],
            count: 0,
        };
        let itself = Best {
            weight: 0,
            number: 0,
        };
        // By number: a column's point is worked out from its number.
        for x in 0..width(network) {
            work.put(head(network, x), x, itself);
        }
        work
    }

    /// Takes the given edge of this number into the table, if it is better than what is known.
    fn adopt(&mut self, network: &Network, number: usize)
        requires loaded { Loaded (model network.now.content) self.old.best number }
        requires place { number < length (given (model network.now.content)) }
        ensures table { Loaded (model network.now.content) self.new.best (suc number) }
        ensures count { self.new.count ≡ self.old.count }
    {
        let Some((p, x, entry)) = given_entry(network, number) else {
            return;
        };
        if entry.weight < self.at(p, x).weight {
            self.put(p, x, entry);
        }
    }

    /// The table of all given edges.
    pub(crate) fn load(network: &Network) -> Work
        ensures table { Loaded (model network.now.content) result.best (length (given (model network.now.content))) }
        ensures count { result.count ≡ 0 }
    {
        let mut work = Work::empty(network);
        // By number: the given edges stand in no list, and a step names an edge by its number.
        for number in 0..given_count(network) {
            work.adopt(network, number);
        }
        work
    }
}
