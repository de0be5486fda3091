//! The commands `check`, `try` and `stretch`.
use crate::errors::CommandError;
use card::closed::ClosedCard;
use judge::marking::Mark;
use rules::parts::Tie;

// No Display of marks: the words are the script's, and two.
fn print_mark(rt: &impl Print, mark: Mark) -> Result<(), CommandError> {
    rt.println(match mark {
        Mark::Good => "good",
        Mark::Bad => "bad",
    })?;
    Ok(())
}

pub fn check(rt: &impl Print, card: &ClosedCard) -> Result<(), CommandError> {
    print_mark(rt, card.check())
}

pub fn try_tie(rt: &impl Print, card: &mut ClosedCard, tie: Tie) -> Result<(), CommandError> {
    print_mark(rt, card.try_tie(tie)?)
}

pub fn stretch(rt: &impl Print, card: &ClosedCard) -> Result<(), CommandError> {
    match card.stretch() {
        Some(horizon) => rt.println(horizon)?,
        None => rt.println("none")?,
    }
    Ok(())
}
