//! The command `explain`.
use crate::errors::CommandError;
use crate::reading::ANY_EDGE;
use card::closed::ClosedCard;
use rules::edges::Step;
use steps::prints::Printed;

/// What stands in the places of a list before steps are written into them.
const NO_STEP: Step = Step {
    letter: 0,
    left: 0,
    right: 0,
    makes: ANY_EDGE,
};

/// Explains a bad mark in a list of so many places: the count of steps, then each step on a line.
pub fn explain(
    rt: &(impl Print + AllocGlobal),
    card: &ClosedCard,
    places: usize,
) -> Result<(), CommandError> {
    // The card writes into the caller's list, whose places are filled before: no call on it depends on memory.
    let mut list = vec![in rt.alloc(); NO_STEP; places]?;
    let count = card.explain(list.as_mut_slice())?;
    println!(rt; "steps {count}")?;
    for step in list.iter().take(count) {
        rt.println(Printed(*step))?;
    }
    Ok(())
}
