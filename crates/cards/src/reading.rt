//! The command `steps`: a list of steps, each by its letter, left and right.
use crate::errors::CommandError;
use crate::numbers::read_number;
use card::closed::ClosedCard;
use rules::edges::{Edge, Kind, Step};
use std::alloc::Global;

/// What stands for the edge of a step that is unlawful whatever it makes.
pub const ANY_EDGE: Edge = Edge {
    kind: Kind::Plain,
    source: 0,
    target: 0,
    weight: 0,
};

/// A letter's code, if the word is one letter.
fn read_letter(word: &str) -> Result<u8, CommandError> {
    match word.as_bytes() {
        [letter] => Ok(*letter),
        _ => Err(CommandError::Unreadable),
    }
}

/// The step of three words, with the edge that it makes after these steps.
fn read_step(
    card: &ClosedCard,
    steps: &[Step],
    [letter, left, right]: [&str; 3],
) -> Result<Step, CommandError> {
    let letter = read_letter(letter)?;
    let left = read_number(left, u32::MAX)?;
    let right = read_number(right, u32::MAX)?;
    let makes = card
        .next_edge(steps, letter, left, right)
        .unwrap_or(ANY_EDGE);
    Ok(Step {
        letter,
        left,
        right,
        makes,
    })
}

/// Reads words as steps, three to a step.
fn read_list(alloc: Global, card: &ClosedCard, words: &[&str]) -> Result<Vec<Step>, CommandError> {
    let (triples, []) = words.as_chunks::<3>() else {
        return Err(CommandError::Unreadable);
    };
    let mut steps = Vec::new(alloc);
    for triple in triples {
        let step = read_step(card, steps.as_slice(), *triple)?;
        steps.push(step)?;
    }
    Ok(steps)
}

/// Reads a list of steps on the card.
pub fn read_steps(
    rt: &(impl Print + AllocGlobal),
    card: &ClosedCard,
    words: &[&str],
) -> Result<(), CommandError> {
    let steps = read_list(rt.alloc(), card, words)?;
    card.read(steps.as_slice())?;
    rt.println("passes")?;
    Ok(())
}
