//! Judges generated cards of full size: 32 points, 8 spans, 96 ties.
//! The counts of marks go to standard output, and the time to standard error.
#![tactic(auto)]

ghost use Rattle.std.specs.Prelude.{◌<◌};

use judge::marking::{Mark, mark_of};
use network::network::Network;
use rules::parts::Tie;
use std::io;
use std::time::Instant;

const CARDS: usize = 3000;

/// Pseudo-random numbers, by a linear congruential generator.
// Trials has its own: a crate for one step of a generator would be longer than the step.
#[derive(Drop)]
struct Numbers {
    state: u64,
}

impl Numbers {
    /// The next number below a bound.
    fn below(&mut self, bound: u16) -> u16
        requires { 0 < bound }
        ensures { result < bound }
    {
        self.state = self
            .state
            .wrapping_mul(6_364_136_223_846_793_005)
            .wrapping_add(1_442_695_040_888_963_407);
        let number = (self.state >> 33) % u64::from(bound);
        number as u16
    }
}

/// Adds a span of up to an hour and as much play again.
fn add_span(card: &mut Network, numbers: &mut Numbers) {
    let start = numbers.below(24) as u8;
    let least = 1 + numbers.below(60);
    let most = least + numbers.below(60);
    let _ = card.add_span(start, least, most);
}

/// Adds a tie, unless the card refuses it. One in four is tight.
fn add_tie(card: &mut Network, numbers: &mut Numbers) {
    let from = numbers.below(32) as u8;
    let to = numbers.below(32) as u8;
    let tight = numbers.below(4) == 0;
    let gap = if tight {
        numbers.below(200) as i16 - 20
    } else {
        numbers.below(1200) as i16 + 200
    };
    let _ = card.add_tie(Tie { from, to, gap });
}

/// The next card. What it refuses is left out: ties from a point to itself, and those after the 96th.
fn next_card(numbers: &mut Numbers) -> Network {
    let mut card = Network::fresh(1440);
    for _ in 0..23 {
        let _ = card.add_order();
    }
    for _ in 0..8 {
        add_span(&mut card, numbers);
    }
    for _ in 0..100 {
        add_tie(&mut card, numbers);
    }
    card
}

/// How many of the next cards are good.
fn count_good(numbers: &mut Numbers) -> usize {
    (0..CARDS)
        .filter(|_| mark_of(&next_card(numbers)) == Mark::Good)
        .count()
}

fn main(rt: HostRuntime) -> io::Result<()> {
    let mut numbers = Numbers { state: 1 };
    let start = Instant::now(&rt)?;
    let good = count_good(&mut numbers);
    let time = start.elapsed(&rt)?;
    println!(rt; "{good} of {CARDS} cards are good")?;
    eprintln!(rt; "{} ms", time.as_millis())
}
