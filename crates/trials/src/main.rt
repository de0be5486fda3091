//! Trials of the building calls and of the readers of steps. Each line tells how many expectations hold, and how many fail.
#![tactic(auto)]

mod calls;
mod chances;
mod faults;
mod list;
mod lists;
mod millions;
mod random;
mod ranges;
mod reader;
mod tally;

fn run(rt: &impl Print) -> anyhow::Result<()> {
    println!(rt; "horizons: {}", ranges::horizons())?;
    println!(rt; "bounds: {}", ranges::bounds())?;
    println!(rt; "gaps: {}", ranges::gaps())?;
    println!(rt; "rooms: {}", ranges::rooms())?;
    println!(rt; "faults of spans: {}", faults::span_faults())?;
    println!(rt; "faults of ties: {}", faults::tie_faults())?;
    println!(rt; "weights at a million: {}", millions::millions())?;
    println!(rt; "side conditions: {}", lists::side_conditions())?;
    println!(rt; "letters: {}", lists::letters())?;
    println!(rt; "made edges: {}", lists::made_edges())?;
    let outcome = chances::try_cards(2000);
    println!(rt; "random lists: {}", outcome.tally)?;
    println!(rt;
        "of these {} pass, {} do not close",
        outcome.passed, outcome.unclosed
    )?;
    Ok(())
}

fn main(rt: HostRuntime) -> anyhow::Result<()> {
    run(&rt)
}
