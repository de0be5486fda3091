//! The given edges by their numbers.
ghost use Rattle.std.specs.Prelude.{◌≡◌, suc, ◌-◌, ◌*◌, ◌/◌, ◌%◌, ◌<◌, length, slice_index_or};
ghost use Rattle.rules.specs.Steps.{given, edge_at, no_edge, of_point, of_span};
ghost use Rattle.network.specs.Model.{model};

use network::network::Network;
use rules::edges::{Edge, Kind};
use rules::parts::Span;

// A number beside the network: a given edge is worked out from both.

/// How many given edges a card has.
pub fn given_count(network: &Network) -> usize
    ensures { result ≡ length (given (model network.now.content)) }
{
    let content = &network.content;
    2 * (content.points - 1) + 4 * content.spanned + content.tied
}

/// The edge of a point after 0, of the first 2 by point.
fn point_edge(network: &Network, number: usize) -> Edge
    requires { number < 2 * (network.now.content.points - 1) }
    ensures { result ≡ slice_index_or (of_point (model network.now.content) (suc (number / 2))) (number % 2) no_edge }
{
    let point = (number / 2 + 1) as u8;
    if number % 2 == 0 {
        Edge {
            kind: Kind::Plain,
            source: 0,
            target: point,
            weight: i32::from(network.horizon()),
        }
    } else {
        Edge {
            kind: Kind::Plain,
            source: point,
            target: 0,
            weight: 0,
        }
    }
}

/// The edge of a span, of the first 4 by span.
fn span_edge(network: &Network, number: usize) -> Edge
    requires { number < 4 * network.now.content.spanned }
    ensures { result ≡ slice_index_or (of_span (model network.now.content) (number / 4)) (number % 4) no_edge }
{
    let s = number / 4;
    let span = network.spans()[s];
    // By remainder: the rules number the four edges of a span in this order.
    match number % 4 {
        0 => Edge {
            kind: Kind::Plain,
            source: span.start,
            target: span.finish,
            weight: i32::from(span.most),
        },
        1 => Edge {
            kind: Kind::Plain,
            source: span.finish,
            target: span.start,
            weight: -i32::from(span.least),
        },
        2 => Edge {
            kind: Kind::Lower(s as u8),
            source: span.start,
            target: span.finish,
            weight: i32::from(span.least),
        },
        _ => Edge {
            kind: Kind::Wait(s as u8),
            source: span.finish,
            target: span.start,
            weight: -i32::from(span.most),
        },
    }
}

/// The given edge of this number.
pub fn given_edge(network: &Network, number: usize) -> Option<Edge>
    ensures { result ≡ edge_at (given (model network.now.content)) number }
{
    let content = &network.content;
    let of_points = 2 * (content.points - 1);
    let of_spans = 4 * content.spanned;
    if number < of_points {
        return Some(point_edge(network, number));
    }
    if number < of_points + of_spans {
        return Some(span_edge(network, number - of_points));
    }
    let tie = network.tie(number - of_points - of_spans)?;
    Some(Edge {
        kind: Kind::Plain,
        source: tie.from,
        target: tie.to,
        weight: i32::from(tie.gap),
    })
}
