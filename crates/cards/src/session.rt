//! What a script works on, and the answers to its commands.
use crate::command::{ClosedCommand, Command, OpenCommand, RunCommand, StateChange};
use crate::errors::{CommandError, NotNow};
use crate::explaining::explain;
use crate::judging::{check, stretch, try_tie};
use crate::kitchens::{ScriptKitchen, no_kitchen, on_kitchen};
use crate::names::Names;
use crate::reading::read_steps;
use crate::running::{ask, play};
use crate::show::show_card;
use crate::tables::print_distances;
use card::closed::ClosedCard;
use card::open::OpenCard;
use network::network::Network;
use run::run::Run;
use std::alloc::Global;
use std::mem;

/// The card in its state.
#[derive(Drop)]
enum Held {
    Open(OpenCard),
    Closed(ClosedCard),
    Running(Run),
}

impl Default for Held {
    fn default() -> Held {
        Held::Open(OpenCard::new())
    }
}

impl Held {
    fn network(&self) -> &Network {
        match self {
            Held::Open(card) => card.network(),
            Held::Closed(card) => card.network(),
            Held::Running(run) => run.network(),
        }
    }

    /// The answer to a command that the card's state does not take.
    fn not_now(&self) -> NotNow {
        match self {
            Held::Open(_) => NotNow::CardOpen,
            Held::Closed(_) => NotNow::CardClosed,
            Held::Running(_) => NotNow::CardRunning,
        }
    }
}

/// The card with the names of its points, and the kitchen.
#[derive(Drop)]
pub struct Session {
    held: Held,
    names: Names,
    kitchen: ScriptKitchen,
}

impl Session {
    /// A new place for a card, and a kitchen of no spans.
    pub fn new(alloc: Global) -> Result<Session, CommandError> {
        Ok(Session {
            held: Held::default(),
            names: Names::new(alloc)?,
            kitchen: no_kitchen()?,
        })
    }

    /// Does a command, and prints its answer, if it is done.
    pub fn execute(
        &mut self,
        rt: &(impl Print + AllocGlobal),
        command: Command,
    ) -> Result<(), CommandError> {
        match (command, &mut self.held) {
            (Command::Show, held) => show_card(rt, held.network(), &self.names)?,
            (Command::Change(change), _) => self.change(rt, change)?,
            (Command::Open(command), Held::Open(card)) => on_open(
                rt,
                card,
                &mut self.names,
                command,
            )?,
            (Command::Closed(command), Held::Closed(card)) => on_closed(rt, card, command)?,
            (Command::Run(command), Held::Running(run)) => {
                on_run(rt, run, &mut self.kitchen, &self.names, command)?
            }
            (Command::Kitchen(command), _) => on_kitchen(rt, &mut self.kitchen, command)?,
            (_, held) => return Err(held.not_now().into()),
        }
        Ok(())
    }

    /// Takes the card into another state.
    fn change(&mut self, rt: &impl Print, change: StateChange) -> Result<(), CommandError> {
        // The place holds a new card until the present one is in its next state.
        let (held, answer) = match (mem::take(&mut self.held), change) {
            (Held::Open(card), StateChange::Close) => (Held::Closed(card.close()), "closed"),
            (Held::Closed(card), StateChange::Reopen) => (Held::Open(card.reopen()), "open"),
            (Held::Closed(card), StateChange::Begin) => {
                let run = Run::begin(card);
                let answer = if run.is_live() { "live" } else { "barred" };
                (Held::Running(run), answer)
            }
            (Held::Running(run), StateChange::End) => (Held::Closed(run.end()), "closed"),
            (held, _) => {
                self.held = held;
                return Err(self.held.not_now().into());
            }
        };
        self.held = held;
        rt.println(answer)?;
        Ok(())
    }
}

/// Gives a new point its name.
fn add_point(
    rt: &impl Print,
    names: &mut Names,
    point: u8,
    name: &str,
) -> Result<(), CommandError> {
    names.add(name)?;
    println!(rt; "point {point}")?;
    Ok(())
}

/// A command on an open card.
fn on_open(
    rt: &impl Print,
    card: &mut OpenCard,
    names: &mut Names,
    command: OpenCommand,
) -> Result<(), CommandError> {
    match command {
        OpenCommand::Open { horizon } => {
            card.open(horizon)?;
            names.reset()?;
            rt.println("ok")?;
        }
        OpenCommand::Order { name } => add_point(rt, names, card.add_order()?, name)?,
        OpenCommand::Span {
            start,
            least,
            most,
            name,
        } => add_point(rt, names, card.add_span(start, least, most)?, name)?,
        OpenCommand::Tie(tie) => {
            let number = card.add_tie(tie)?;
            println!(rt; "tie {number}")?;
        }
    }
    Ok(())
}

/// A command on a closed card.
fn on_closed(
    rt: &(impl Print + AllocGlobal),
    card: &mut ClosedCard,
    command: ClosedCommand,
) -> Result<(), CommandError> {
    match command {
        ClosedCommand::Steps(words) => read_steps(rt, card, words),
        ClosedCommand::Distances => Ok(print_distances(rt, card)?),
        ClosedCommand::Check => check(rt, card),
        ClosedCommand::Try(tie) => try_tie(rt, card, tie),
        ClosedCommand::Stretch => stretch(rt, card),
        ClosedCommand::Explain { places } => explain(rt, card, places),
    }
}

/// A command on a run.
fn on_run(
    rt: &impl Print,
    run: &mut Run,
    kitchen: &mut ScriptKitchen,
    names: &Names,
    command: RunCommand,
) -> Result<(), CommandError> {
    match command {
        RunCommand::Play { minutes } => play(rt, run, kitchen, names, minutes),
        RunCommand::Ask { point } => ask(rt, run, point),
    }
}
