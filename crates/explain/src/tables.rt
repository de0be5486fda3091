//! The columns of the table of best edges.
ghost use Rattle.std.specs.Prelude.{◌≡◌, ◌<◌, pos};
ghost use Rattle.network.specs.Model.{model};
ghost use Rattle.rules.specs.Card.{span_count, start_of, finish_of, least_of};
ghost use Rattle.rules.specs.Edges.{edge};
ghost use Rattle.rules.specs.Steps.{given};
ghost use Rattle.explain.specs.Columns.{columns, target_of, wait_of, head_of, kind_of, letter_of, lower_of};
ghost use Rattle.explain.specs.Working.{Stands};
ghost use Rattle.rules.specs.declared.edges.Kind.TheVariants.{Lower};

use crate::work::Best;
use judge::target::Target;
use network::network::Network;
use rules::edges::Kind;

/// What a column stands for.
// Columns are numbers: one loop goes through all of them, and a row is read at them.
fn target(network: &Network, x: usize) -> Target
    ensures { result ≡ target_of (model network.now.content) x }
{
    let points = network.points();
    if x < points {
        Target::Point(x)
    } else {
        Target::Start(x - points)
    }
}

/// The point to which the edges of a column lead.
pub(crate) fn head(network: &Network, x: usize) -> usize
    requires { x < columns (model network.now.content) }
    ensures { result ≡ head_of (model network.now.content) x }
{
    match target(network, x) {
        Target::Point(q) => q,
        Target::Start(s) => usize::from(network.spans()[s].start),
    }
}

/// The kind of the edges of a column.
pub(crate) fn kind(network: &Network, x: usize) -> Kind
    requires { x < columns (model network.now.content) }
    ensures { result ≡ kind_of (model network.now.content) x }
{
    match target(network, x) {
        Target::Point(_) => Kind::Plain,
        Target::Start(s) => Kind::Wait(s as u8),
    }
}

/// The letter of the rule that puts a plain edge before one of the column.
// A number, as a step keeps its letter.
pub(crate) fn letter(network: &Network, x: usize) -> u8
    ensures { result ≡ letter_of (model network.now.content) x }
{
    match target(network, x) {
        Target::Point(_) => b'N',
        Target::Start(_) => b'U',
    }
}

/// The letter of the rule that puts a lower edge before one of the column.
// The letter is a number, as a step keeps it.
pub(crate) fn lower_letter(network: &Network, x: usize) -> u8
    ensures { result ≡ lower_of (model network.now.content) x }
{
    match target(network, x) {
        Target::Point(_) => b'L',
        Target::Start(_) => b'X',
    }
}

/// How many columns there are.
pub(crate) fn width(network: &Network) -> usize
    ensures { result ≡ columns (model network.now.content) }
{
    network.points() + network.span_count()
}

/// The column of the waits for a span.
pub(crate) fn wait_column(network: &Network, s: usize) -> usize
    requires { s < span_count (model network.now.content) }
    ensures { result ≡ wait_of (model network.now.content) s }
{
    network.points() + s
}

/// The lower edge of a span.
pub(crate) fn lower_edge(network: &Network, s: usize) -> Best
    requires { s < span_count (model network.now.content) }
    ensures weight { result.weight ≡ pos (least_of (model network.now.content) s) }
    ensures number { Stands (given (model network.now.content)) result.number (edge (Lower s) (start_of (model network.now.content) s) (finish_of (model network.now.content) s) (pos (least_of (model network.now.content) s))) }
{
    let number = 2 * (network.points() - 1) + 4 * s + 2;
    Best {
        weight: i32::from(network.spans()[s].least),
        number: number as u32,
    }
}
