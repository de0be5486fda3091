//! The commands on a run: `play` and `ask`.
use crate::errors::CommandError;
use crate::names::Names;
use kitchen::interface::Kitchen;
use line::event::Event;
use line::write::{LINE_BYTES, write_line};
use rules::refusal::Refusal;
use run::run::Run;
use std::io;
use std::io::Write;

/// Prints the line of a point that has just happened.
fn print_event(rt: &impl Print, run: &Run, names: &Names, point: u8) -> Result<(), CommandError> {
    let Some(minute) = run.ask(point)? else {
        return Ok(());
    };
    let event = if run.network().is_finish(point) {
        Event::Finish
    } else {
        Event::Order
    };
    let name = names.of(usize::from(point));
    let mut buffer = [0u8; LINE_BYTES];
    let length = write_line(&mut buffer, minute, event, point, name.as_bytes())?;
    io::writer(rt).write_all(&buffer[..length])?;
    Ok(())
}

/// Plays one minute, and prints its events.
fn play_one<K: Kitchen>(
    rt: &impl Print,
    run: &mut Run,
    kitchen: &mut K,
    names: &Names,
) -> Result<(), CommandError> {
    // A run writes into the caller's list and answers how many: no call on it depends on memory.
    let mut list = [0u8; 32];
    let count = run.play(kitchen, &mut list)?;
    for point in list.iter().take(count) {
        print_event(rt, run, names, *point)?;
    }
    Ok(())
}

/// Plays so many minutes, or all that are left; a refusal stops it. After the last minute `all` asks for nothing more.
pub fn play<K: Kitchen>(
    rt: &impl Print,
    run: &mut Run,
    kitchen: &mut K,
    names: &Names,
    minutes: Option<u64>,
) -> Result<(), CommandError> {
    for _ in 0..minutes.unwrap_or(u64::MAX) {
        match play_one(rt, run, kitchen, names) {
            Err(CommandError::Refused(Refusal::HorizonPlayed)) if minutes.is_none() => {
                return Ok(());
            }
            played => played?,
        }
    }
    Ok(())
}

pub fn ask(rt: &impl Print, run: &Run, point: u8) -> Result<(), CommandError> {
    match run.ask(point)? {
        Some(minute) => rt.println(minute)?,
        None => rt.println("none")?,
    }
    Ok(())
}
