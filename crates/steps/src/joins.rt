//! The rules: which edge a letter makes of two edges.
ghost use Rattle.std.specs.Prelude.{◌≡◌};
ghost use Rattle.rules.specs.Card.{least_of};
ghost use Rattle.network.specs.Model.{model};
ghost use Rattle.steps.specs.Makes.{ranged, chained, turned, by_n, by_u, by_l, by_x, by_r, by_m, by_s, makes};

use network::network::Network;
use rules::edges::{Edge, Kind};

// Letters are numbers, as steps keep them.
// Two edges and no struct of both: the rules are stated of a left and a right edge, and R and M use the left alone.

/// The edge of this kind end to end, if the two meet and its weight is in range.
fn chain(kind: Kind, left: Edge, right: Edge) -> Option<Edge>
    ensures { result ≡ chained kind left right }
{
    if left.target != right.source {
        return None;
    }
    let weight = i64::from(left.weight) + i64::from(right.weight);
    if weight < -1_000_000 || weight > 1_000_000 {
        return None;
    }
    Some(Edge {
        kind,
        source: left.source,
        target: right.target,
        weight: weight as i32,
    })
}

/// The same edge, of another kind, if its weight is in range.
fn turn(kind: Kind, edge: Edge) -> Option<Edge>
    ensures { result ≡ turned kind edge }
{
    if edge.weight < -1_000_000 || edge.weight > 1_000_000 {
        return None;
    }
    Some(Edge { kind, ..edge })
}

/// N: two plain edges.
fn join_plain(left: Edge, right: Edge) -> Option<Edge>
    ensures { result ≡ by_n left right }
{
    match (left.kind, right.kind) {
        (Kind::Plain, Kind::Plain) => chain(Kind::Plain, left, right),
        _ => None,
    }
}

/// U: a plain edge and a wait.
fn join_wait(left: Edge, right: Edge) -> Option<Edge>
    ensures { result ≡ by_u left right }
{
    match (left.kind, right.kind) {
        (Kind::Plain, Kind::Wait(s)) => chain(Kind::Wait(s), left, right),
        _ => None,
    }
}

/// L: a lower edge and a plain one of negative weight.
fn lower_plain(left: Edge, right: Edge) -> Option<Edge>
    ensures { result ≡ by_l left right }
{
    match (left.kind, right.kind) {
        (Kind::Lower(_), Kind::Plain) if right.weight < 0 => chain(Kind::Plain, left, right),
        _ => None,
    }
}

/// X: a lower edge and a wait of negative weight, of two different spans.
fn lower_wait(left: Edge, right: Edge) -> Option<Edge>
    ensures { result ≡ by_x left right }
{
    match (left.kind, right.kind) {
        (Kind::Lower(k), Kind::Wait(s)) if k != s && right.weight < 0 => {
            chain(Kind::Wait(s), left, right)
        }
        _ => None,
    }
}

/// The least of a span; 0 where there is none.
fn least_of(network: &Network, span: u8) -> u16
    ensures { result ≡ least_of (model network.now.content) span }
{
    network.span(usize::from(span)).map_or(0, |span| span.least)
}

/// R: a wait of no more than the least of its span.
fn release(network: &Network, left: Edge) -> Option<Edge>
    ensures { result ≡ by_r (model network.now.content) left }
{
    let Kind::Wait(s) = left.kind else {
        return None;
    };
    if left.weight < -i32::from(least_of(network, s)) {
        return None;
    }
    turn(Kind::Plain, left)
}

/// M: a plain edge or a wait.
fn project(left: Edge) -> Option<Edge>
    ensures { result ≡ by_m left }
{
    match left.kind {
        Kind::Plain | Kind::Wait(_) => turn(Kind::AllMost, left),
        Kind::Lower(_) | Kind::AllMost => None,
    }
}

/// S: two all-most edges.
fn join_all_most(left: Edge, right: Edge) -> Option<Edge>
    ensures { result ≡ by_s left right }
{
    match (left.kind, right.kind) {
        (Kind::AllMost, Kind::AllMost) => chain(Kind::AllMost, left, right),
        _ => None,
    }
}

/// The edge that a letter makes of a left and a right edge; R and M take the left one alone.
pub fn join(network: &Network, letter: u8, left: Edge, right: Edge) -> Option<Edge>
    ensures { result ≡ makes (model network.now.content) letter left right }
{
    match char::from(letter) {
        'N' => join_plain(left, right),
        'U' => join_wait(left, right),
        'L' => lower_plain(left, right),
        'X' => lower_wait(left, right),
        'R' => release(network, left),
        'M' => project(left),
        'S' => join_all_most(left, right),
        _ => None,
    }
}
