//! Times the best weights over walks on full tables of 32 points, at either kind of weight.
//! The counts and sums go to standard output, and the times to standard error.
#![tactic(auto)]

mod sample;

ghost use Rattle.std.specs.Prelude.{◌/◌, ◌≤◌};
ghost use Rattle.walks.specs.Tables.{cell, Small};

use crate::sample::Sample;
use std::io;
use std::time::Instant;
use walks::closure::best_walks;
use walks::minutes::Minutes;
use walks::plain_wait::PlainWait;
use walks::target::best_walks_to;
use walks::weight::Weight;

const POINTS: usize = 32;

/// For walks of up to 32 edges.
const DOUBLINGS: usize = 5;

/// The same for walks to one target.
const EDGES: usize = 32;

const ROUNDS: usize = 1000;

// Tables here are arrays, as the walks take them.

/// Fills a table with samples, none absent.
fn fill<W: Sample>(table: &mut [[W; POINTS]; POINTS], seed: usize)
    ensures { Small W.Weight.size (cell W.Weight.meaning W.Weight.absent table.new) 32 1440 }
{
    for (p, row) in table.iter_mut().enumerate() {
        for (q, weight) in row.iter_mut().enumerate() {
            let number = seed
                .wrapping_mul(1024)
                .wrapping_add(p * 32 + q)
                .wrapping_mul(2_654_435_761);
            *weight = W::draw(number);
        }
    }
}

/// The sum of the scores of some weights.
fn total<W: Sample>(weights: &[W]) -> i64 {
    weights
        .iter()
        .fold(0i64, |sum, weight| sum.wrapping_add(weight.score()))
}

/// Closes one table after another, and adds up the scores.
// The bound of weights is a clause: it is a fact of the kind of weight, and of no table.
fn close_tables<W: Sample>(
    edges: &mut [[W; POINTS]; POINTS],
    out: &mut [[W; POINTS]; POINTS],
    scratch: &mut [[W; POINTS]; POINTS],
) -> i64
    requires { 1440 ≤ W.Weight.limit / 32 }
{
    let mut sum: i64 = 0;
    for seed in 0..ROUNDS {
        fill(edges, seed);
        best_walks(edges, out, scratch, POINTS, DOUBLINGS);
        sum = out
            .iter()
            .fold(sum, |sum, row| sum.wrapping_add(total(row)));
    }
    sum
}

/// Finds the best weights to one target in one table after another, and adds up the scores.
fn reach_targets<W: Sample>(edges: &mut [[W; POINTS]; POINTS], out: &mut [W; POINTS]) -> i64
    requires { 1440 ≤ W.Weight.limit / 32 }
{
    let mut sum: i64 = 0;
    for seed in 0..ROUNDS {
        fill(edges, seed);
        let last = edges[0];
        best_walks_to(edges, &last, out, POINTS, EDGES);
        sum = sum.wrapping_add(total(out));
    }
    sum
}

/// Writes the count and the sum, and for a reader the time.
fn report(rt: &HostRuntime, name: &str, joins: usize, sum: i64, start: Instant) -> io::Result<()> {
    let time = start.elapsed(rt)?;
    println!(rt; "{name}: {ROUNDS} tables of {POINTS} points, {joins} joins each, sum {sum}")?;
    eprintln!(rt; "{name}: {} ms", time.as_millis())
}

/// Times both searches at one kind of weight, in tables that are absent at first.
fn time_kind<W: Sample>(
    rt: &HostRuntime,
    absent: &[[W; POINTS]; POINTS],
    between_all: &str,
    to_one: &str,
) -> io::Result<()>
    requires { 1440 ≤ W.Weight.limit / 32 }
{
    let mut edges = *absent;
    let mut out = *absent;
    let mut scratch = *absent;
    let start = Instant::now(rt)?;
    let sum = close_tables(&mut edges, &mut out, &mut scratch);
    // Where no weight is absent, no way is left out.
    let joins = POINTS * POINTS * POINTS * DOUBLINGS;
    report(rt, between_all, joins, sum, start)?;
    let start = Instant::now(rt)?;
    let sum = reach_targets(&mut edges, &mut out[0]);
    let joins = POINTS * POINTS * (EDGES - 1);
    report(rt, to_one, joins, sum, start)
}

fn main(rt: HostRuntime) -> io::Result<()> {
    let minutes = [[Minutes::absent(); POINTS]; POINTS];
    let pairs = [[PlainWait::absent(); POINTS]; POINTS];
    time_kind(&rt, &minutes, "minutes", "minutes to one target")?;
    time_kind(&rt, &pairs, "pairs", "pairs to one target")
}
