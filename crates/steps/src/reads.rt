//! The reading of step lists. Edges that steps made are taken from the list itself, so that reading needs no memory of its own.
ghost use Rattle.std.specs.Prelude.{◌≡◌, pos, ◌<ℤ◌, Decides};
ghost use Rattle.rules.specs.Steps.{all_known, edge_at, LawfulStep, Closing};
ghost use Rattle.network.specs.Model.{model};
ghost use Rattle.steps.specs.Reading.{Makes, ReadAs};

use crate::given::{given_count, given_edge};
use crate::joins::join;
use network::network::Network;
use rules::edges::{Edge, Step};
use rules::refusal::Refusal;

// Letters are numbers, as steps keep them.

// The steps are the caller's, and read at every length: no struct holds them with the network.

/// The edge of this number where these steps have been made.
fn edge_at(network: &Network, made: &[Step], number: u32) -> Option<Edge>
    ensures { result ≡ edge_at (all_known (model network.now.content) made.now) number }
{
    let number = number as usize;
    let given = given_count(network);
    if number < given {
        return given_edge(network, number);
    }
    let step = made.get(number - given)?;
    Some(step.makes)
}

/// Whether the numbers suit the letter: R and M repeat the left as the right.
fn is_repeated(letter: u8, left: u32, right: u32) -> bool
    ensures { Decides result ((letter ≡ 82 → right ≡ left) × (letter ≡ 77 → right ≡ left)) }
{
    match char::from(letter) {
        'R' | 'M' => left == right,
        _ => true,
    }
}

/// The edge that a step makes, read after these steps; none if it is unlawful whatever it makes.
pub fn next_edge(
    network: &Network,
    made: &[Step],
    letter: u8,
    left: u32,
    right: u32,
) -> Option<Edge>
    ensures { Makes (model network.now.content) (all_known (model network.now.content) made.now) letter left right result }
{
    if !is_repeated(letter, left, right) {
        return None;
    }
    let first = edge_at(network, made, left)?;
    let second = edge_at(network, made, right)?;
    join(network, letter, first, second)
}

/// Whether a step is lawful after these.
fn is_lawful(network: &Network, made: &[Step], step: Step) -> bool
    ensures { Decides result (LawfulStep (model network.now.content) (all_known (model network.now.content) made.now) step) }
{
    let next = next_edge(network, made, step.letter, step.left, step.right);
    next.is_some_and(|edge| edge == step.makes)
}

/// Whether an edge leads from a point to itself and weighs less than 0.
fn is_loop(edge: Edge) -> bool
    ensures { Decides result ((edge.source ≡ edge.target) × (edge.weight <ℤ pos 0)) }
{
    edge.source == edge.target && edge.weight < 0
}

/// Whether there is a last step, and its edge is such a loop.
fn is_closing(steps: &[Step]) -> bool
    ensures { Decides result (Closing steps.now) }
{
    steps.last().is_some_and(|step| is_loop(step.makes))
}

/// Reads a list of steps: it passes, or it is refused for its first unlawful step, or else for want of a closing loop.
pub fn read(network: &Network, steps: &[Step]) -> Result<(), Refusal>
    ensures { ReadAs (model network.now.content) steps.now result }
{
    for (place, step) in steps.iter().enumerate() {
        if !is_lawful(network, &steps[..place], *step) {
            return Err(Refusal::StepUnlawful(place));
        }
    }
    if !is_closing(steps) {
        return Err(Refusal::NoLoop);
    }
    Ok(())
}
