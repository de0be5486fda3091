//! Timing cards by a script: a command a line on standard input, an answer a line on standard output.
#![tactic(auto)]

mod command;
mod errors;
mod explaining;
mod judging;
mod kitchens;
mod names;
mod numbers;
mod reading;
mod running;
mod session;
mod show;
mod tables;

use command::read_command;
use errors::CommandError;
use session::Session;

/// Does the command of a line.
fn execute(
    rt: &(impl Print + AllocGlobal),
    session: &mut Session,
    line: &str,
) -> Result<(), CommandError> {
    let words: Vec<&str> = line.split_whitespace().collect(rt.alloc())?;
    match read_command(rt.alloc(), words.as_slice())? {
        Some(command) => session.execute(rt, command),
        None => Ok(()),
    }
}

fn run(rt: &(impl Input + Print + AllocGlobal)) -> anyhow::Result<()> {
    let mut session = Session::new(rt.alloc())?;
    for line in rt.lines(rt.alloc()) {
        let line = line?;
        match execute(rt, &mut session, line.as_str()) {
            Ok(()) => {}
            Err(error @ (CommandError::Memory(_) | CommandError::Output(_))) => {
                return Err(error.into());
            }
            Err(refused) => rt.println(refused)?,
        }
    }
    Ok(())
}

fn main(rt: HostRuntime) -> anyhow::Result<()> {
    run(&rt)
}
