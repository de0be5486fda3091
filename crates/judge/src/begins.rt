//! How the tables of a card begin.
ghost use Rattle.std.specs.Prelude.{◌≡◌, MatchBool};
ghost use Rattle.network.specs.Model.{model};
ghost use Rattle.judge.specs.Closing.{In, Doomed, InTime, begun};
ghost use Rattle.judge.specs.Falling.{Sound};

use crate::closure::Closure;
use crate::parts::span_of;
use crate::relaxation::Relaxation;
use crate::tables::fill_table;
use crate::target::Target;
use network::network::Network;

/// Whether every span ends within the horizon, however long it lasts.
pub(crate) fn in_time(network: &Network) -> bool
    ensures { MatchBool result (InTime (model network.now.content)) (Doomed (model network.now.content)) }
{
    let horizon = network.horizon();
    network.spans().iter().all(|span| span.most <= horizon)
}

/// The weight by which an entry begins.
fn first_weight(network: &Network, p: usize, x: Target) -> i32
    requires { In (model network.now.content) x }
    ensures { result ≡ begun (model network.now.content) p x }
{
    let horizon = i32::from(network.horizon());
    match x {
        Target::Point(q) => { if q == p || q == 0 { 0 } else { horizon } }
        Target::Start(s) => {
            let span = span_of(network, s);
            let most = i32::from(span.most);
            if p == usize::from(span.finish) {
                -most
            } else {
                horizon - most
            }
        }
    }
}

impl<'a> Relaxation<'a> {
    /// A card with the tables to begin with.
    pub(crate) fn begin(network: &'a Network) -> Relaxation<'a>
        requires { InTime (model network.now.content) }
        ensures card { result.network.now ≡ network.now }
        ensures sound { Sound result }
    {
        let points = network.points();
        let mut closure = Closure {
            distances: [[0; 32]; 32],
            waits: [[0; 32]; 8],
        };
        fill_table(&mut closure.distances, points, points, |p, q| {
            first_weight(network, p, Target::Point(q))
        });
        fill_table(&mut closure.waits, network.span_count(), points, |s, p| {
            first_weight(network, p, Target::Start(s))
        });
        Relaxation { network, closure }
    }
}
