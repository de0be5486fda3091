//! The kitchen that a script names, and the commands that it takes.
use crate::command::KitchenCommand;
use crate::errors::{CommandError, NotNow};
use kitchen::contrary::Contrary;
use kitchen::either::Either;
use kitchen::interface::Kitchen;
use kitchen::noted::Noted;
use kitchen::resting::Resting;
use kitchen::track::Status;
use rules::refusal::Refusal;
use std::{fmt, mem};

pub type Plain = Either<Noted, Contrary>;

pub type Rested = Either<Resting<Plain>, Resting<Resting<Plain>>>;

/// A noted or a contrary kitchen, with up to two layers of rest over it.
pub type ScriptKitchen = Either<Plain, Rested>;

/// A kitchen of no spans.
pub fn no_kitchen() -> Result<ScriptKitchen, Refusal> {
    Ok(Either::First(Either::First(Noted::new(&[])?)))
}

/// Lays rests over a kitchen that rests once at most.
fn lay_rest(kitchen: &mut ScriptKitchen, rests: &[u16]) -> Result<(), CommandError> {
    // The place holds a kitchen of no spans until the rests are laid.
    let (rested, answer) = match mem::replace(kitchen, no_kitchen()?) {
        Either::First(plain) => (Either::First(Resting::over(plain, rests)), Ok(())),
        Either::Second(Either::First(once)) => {
            (Either::Second(Resting::over(once, rests)), Ok(()))
        }
        Either::Second(twice) => (twice, Err(CommandError::NotNow(NotNow::RestsTwice))),
    };
    *kitchen = Either::Second(rested);
    answer
}

/// How far a span is, in print.
#[derive(Clone, Copy)]
struct Printed(Status);

impl fmt::Display for Printed {
    fn fmt<W: fmt::Write>(&self, f: &mut fmt::Formatter<W>) -> fmt::Result {
        match self.0 {
            Status::Cold => f.write_str("cold"),
            Status::On(minutes) => write!(f, "on({minutes})"),
            Status::Done(minutes) => write!(f, "done({minutes})"),
        }
    }
}

/// Prints how far each span is, and answers whether some are on.
fn print_statuses(
    rt: &impl Print,
    kitchen: &ScriptKitchen,
    minute: u16,
) -> Result<bool, CommandError> {
    let mut some_on = false;
    print!(rt; "{minute}")?;
    // A kitchen is asked for its spans by their numbers.
    for span in 0..kitchen.count() {
        let status = kitchen.status(span)?;
        print!(rt; " {}", Printed(status))?;
        some_on |= matches!(status, Status::On(_));
    }
    rt.println("")?;
    Ok(some_on)
}

/// Starts every span that is cold, and prints how far each is minute by minute until all are done.
fn clock(rt: &impl Print, kitchen: &mut ScriptKitchen) -> Result<(), CommandError> {
    // A kitchen starts its spans by their numbers.
    for span in 0..kitchen.count() {
        let _ = kitchen.start(span);
    }
    // A bound: that all spans end is not known of every kitchen here.
    for minute in 0..u16::MAX {
        if !print_statuses(rt, kitchen, minute)? {
            break;
        }
        kitchen.advance();
    }
    Ok(())
}

/// Does a command on the kitchen; a kitchen that is refused leaves the present one.
pub fn on_kitchen(
    rt: &impl Print,
    kitchen: &mut ScriptKitchen,
    command: KitchenCommand,
) -> Result<(), CommandError> {
    match command {
        KitchenCommand::Noted(durations) => {
            *kitchen = Either::First(Either::First(Noted::new(durations.as_slice())?));
        }
        KitchenCommand::Contrary(bounds) => {
            *kitchen = Either::First(Either::Second(Contrary::new(bounds.as_slice())?));
        }
        KitchenCommand::Rest(rests) => lay_rest(kitchen, rests.as_slice())?,
        KitchenCommand::Clock => return clock(rt, kitchen),
    }
    println!(rt; "kitchen {}", kitchen.count())?;
    Ok(())
}
