//! A line of a script, read.
use crate::errors::CommandError;
use crate::numbers::read_number;
use rules::parts::Tie;
use std::alloc::Global;

/// The places of a list of steps, where none are asked for.
const EXPLAIN_PLACES: usize = 4096;

/// No explanation needs more places.
const MOST_PLACES: usize = 6_637_824;

/// What a line asks for.
#[derive(Drop)]
pub enum Command<'a> {
    /// The card in print, in any state.
    Show,
    Change(StateChange),
    Open(OpenCommand<'a>),
    Closed(ClosedCommand<'a>),
    Run(RunCommand),
    Kitchen(KitchenCommand),
}

/// The card goes into another state.
#[derive(Clone, Copy)]
pub enum StateChange {
    Close,
    Reopen,
    Begin,
    End,
}

/// What an open card takes.
#[derive(Clone, Copy)]
pub enum OpenCommand<'a> {
    Open {
        horizon: u16,
    },
    Order {
        name: &'a str,
    },
    Span {
        start: u8,
        least: u16,
        most: u16,
        name: &'a str,
    },
    Tie(Tie),
}

/// What a closed card takes.
#[derive(Clone, Copy)]
pub enum ClosedCommand<'a> {
    /// The words of the steps: the edges that they make depend on the card.
    Steps(&'a [&'a str]),
    Distances,
    Check,
    Try(Tie),
    Stretch,
    /// In a list of so many places.
    Explain { places: usize },
}

/// What a run takes.
#[derive(Clone, Copy)]
pub enum RunCommand {
    /// So many minutes, or all that are left.
    Play { minutes: Option<u64> },
    Ask { point: u8 },
}

/// What the kitchen takes, in any state of the card.
#[derive(Drop)]
pub enum KitchenCommand {
    /// A kitchen of these durations.
    Noted(Vec<u16>),
    /// A kitchen of these bounds, least and most.
    Contrary(Vec<(u16, u16)>),
    /// Rests to lay over the kitchen.
    Rest(Vec<u16>),
    Clock,
}

/// The command of a line's words; none for a blank line or a comment.
pub fn read_command<'a>(
    alloc: Global,
    words: &'a [&'a str],
) -> Result<Option<Command<'a>>, CommandError> {
    Ok(Some(match words {
        [] => return Ok(None),
        [first, ..] if first.starts_with('#') => return Ok(None),
        ["show"] => Command::Show,
        ["show", ..] => return Err(CommandError::Unreadable),
        ["close" | "reopen" | "begin" | "end", ..] => Command::Change(read_change(words)?),
        ["open" | "order" | "span" | "tie", ..] => Command::Open(read_open(words)?),
        [
            "steps" | "distances" | "check" | "try" | "stretch" | "explain",
            ..
        ] => { Command::Closed(read_closed(words)?) }
        ["play" | "ask", ..] => Command::Run(read_run(words)?),
        ["kitchen" | "rest" | "clock", ..] => Command::Kitchen(read_kitchen(alloc, words)?),
        _ => return Err(CommandError::Unknown),
    }))
}

fn read_change(words: &[&str]) -> Result<StateChange, CommandError> {
    match words {
        ["close"] => Ok(StateChange::Close),
        ["reopen"] => Ok(StateChange::Reopen),
        ["begin"] => Ok(StateChange::Begin),
        ["end"] => Ok(StateChange::End),
        _ => Err(CommandError::Unreadable),
    }
}

fn read_tie(from: &str, to: &str, gap: &str) -> Result<Tie, CommandError> {
    Ok(Tie {
        from: read_number(from, u8::MAX)?,
        to: read_number(to, u8::MAX)?,
        gap: read_number(gap, i16::MAX)?,
    })
}

fn read_open<'a>(words: &[&'a str]) -> Result<OpenCommand<'a>, CommandError> {
    Ok(match words {
        ["open", horizon] => OpenCommand::Open {
            horizon: read_number(horizon, u16::MAX)?,
        },
        ["order"] => OpenCommand::Order { name: "" },
        ["order", name] => OpenCommand::Order { name: *name },
        ["span", start, least, most] => read_span(start, least, most, "")?,
        ["span", start, least, most, name] => read_span(start, least, most, name)?,
        ["tie", from, to, gap] => OpenCommand::Tie(read_tie(from, to, gap)?),
        _ => return Err(CommandError::Unreadable),
    })
}

fn read_span<'a>(
    start: &str,
    least: &str,
    most: &str,
    name: &'a str,
) -> Result<OpenCommand<'a>, CommandError> {
    Ok(OpenCommand::Span {
        start: read_number(start, u8::MAX)?,
        least: read_number(least, u16::MAX)?,
        most: read_number(most, u16::MAX)?,
        name,
    })
}

fn read_closed<'a>(words: &'a [&'a str]) -> Result<ClosedCommand<'a>, CommandError> {
    Ok(match words {
        ["steps", steps @ ..] => ClosedCommand::Steps(steps),
        ["distances"] => ClosedCommand::Distances,
        ["check"] => ClosedCommand::Check,
        ["try", from, to, gap] => ClosedCommand::Try(read_tie(from, to, gap)?),
        ["stretch"] => ClosedCommand::Stretch,
        ["explain"] => ClosedCommand::Explain {
            places: EXPLAIN_PLACES,
        },
        ["explain", places] => ClosedCommand::Explain {
            places: read_number(places, 0usize)?.min(MOST_PLACES),
        },
        _ => return Err(CommandError::Unreadable),
    })
}

fn read_run(words: &[&str]) -> Result<RunCommand, CommandError> {
    Ok(match words {
        ["play"] => RunCommand::Play { minutes: Some(1) },
        ["play", "all"] => RunCommand::Play { minutes: None },
        ["play", minutes] => RunCommand::Play {
            minutes: Some(read_number(minutes, 0)?),
        },
        ["ask", point] => RunCommand::Ask {
            point: read_number(point, u8::MAX)?,
        },
        _ => return Err(CommandError::Unreadable),
    })
}

fn read_minutes(alloc: Global, words: &[&str]) -> Result<Vec<u16>, CommandError> {
    let mut minutes = Vec::new(alloc);
    // A push for each: by `try_collect` a line of many rests took a fortieth more instructions.
    for word in words {
        minutes.push(read_number(word, u16::MAX)?)?;
    }
    Ok(minutes)
}

fn read_bounds(alloc: Global, words: &[&str]) -> Result<Vec<(u16, u16)>, CommandError> {
    let (pairs, []) = words.as_chunks::<2>() else {
        return Err(CommandError::Unreadable);
    };
    pairs
        .iter()
        .map(|[least, most]| -> Result<(u16, u16), CommandError> {
            Ok((read_number(least, u16::MAX)?, read_number(most, u16::MAX)?))
        })
        .try_collect(alloc)
}

fn read_kitchen(alloc: Global, words: &[&str]) -> Result<KitchenCommand, CommandError> {
    Ok(match words {
        ["kitchen", "noted", durations @ ..] => {
            KitchenCommand::Noted(read_minutes(alloc, durations)?)
        }
        ["kitchen", "contrary", bounds @ ..] => {
            KitchenCommand::Contrary(read_bounds(alloc, bounds)?)
        }
        ["rest", rests @ ..] => KitchenCommand::Rest(read_minutes(alloc, rests)?),
        ["clock"] => KitchenCommand::Clock,
        _ => return Err(CommandError::Unreadable),
    })
}
