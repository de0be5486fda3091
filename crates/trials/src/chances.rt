//! Random step lists over random small cards: the reader against the one that was written on its own.
use crate::list::List;
use crate::random::Random;
use crate::reader::{Parts, Reader};
use crate::tally::Tally;
use card::closed::ClosedCard;
use card::open::OpenCard;
use rules::edges::{Edge, Kind, Step};
use rules::parts::{Span, Tie};
use rules::refusal::Refusal;

/// The longest list that is tried.
const STEPS: usize = 16;

/// How many lists passed, and how many did not close.
#[derive(Clone, Copy, Default)]
pub struct Outcome {
    pub tally: Tally,
    pub passed: u32,
    pub unclosed: u32,
}

/// A span from point 0 or from order 1.
fn some_span(random: &mut Random, finish: u8) -> Span {
    let least = u16::from(random.below(4) & 3) + 1;
    Span {
        start: random.below(2),
        finish,
        least,
        most: least + u16::from(random.below(3) & 3),
    }
}

/// A tie between two of the points 0 to 3.
fn some_tie(random: &mut Random) -> Tie {
    let from = random.below(4) & 3;
    let to = from ^ (1 + (random.below(3) & 1));
    Tie {
        from,
        to,
        gap: i16::from(random.below(14)) - 7,
    }
}

/// The card of these parts, whose order 1 comes before its spans.
fn build(parts: Parts) -> ClosedCard {
    let mut card = OpenCard::new();
    let _ = card.open(parts.horizon);
    let _ = card.add_order();
    for span in parts.spans {
        let _ = card.add_span(span.start, span.least, span.most);
    }
    for tie in parts.ties {
        let _ = card.add_tie(*tie);
    }
    card.close()
}

const KINDS: [Kind; 4] = [Kind::Plain, Kind::AllMost, Kind::Wait(0), Kind::Wait(1)];

/// A step but for the edge that it makes.
#[derive(Clone, Copy)]
struct Join {
    // a number, as a step keeps it
    letter: u8,
    left: u32,
    right: u32,
}

impl Join {
    fn making(self, makes: Edge) -> Step {
        Step {
            letter: self.letter,
            left: self.left,
            right: self.right,
            makes,
        }
    }
}

/// Whether the step is lawful with an edge of some kind, over both edges in a row or over the left one.
fn some_lawful(reader: &Reader, steps: &[Step], join: Join) -> bool {
    let Some(left) = reader.edge(steps, join.left) else {
        return false;
    };
    let Some(right) = reader.edge(steps, join.right) else {
        return false;
    };
    let weight = left.weight.saturating_add(right.weight);
    KINDS.iter().any(|kind| {
        let over = Edge {
            kind: *kind,
            ..left
        };
        let row = Edge {
            target: right.target,
            weight,
            ..over
        };
        reader.is_lawful(steps, join.making(over)) || reader.is_lawful(steps, join.making(row))
    })
}

/// Whether the answer for a next step is right: the edge makes it lawful, and where there is none, no edge at hand does.
fn is_right(reader: &Reader, steps: &[Step], join: Join, answer: Option<Edge>) -> bool {
    match answer {
        Some(makes) => reader.is_lawful(steps, join.making(makes)),
        None => !some_lawful(reader, steps, join),
    }
}

const LETTERS: [u8; 8] = *b"NULXRMSA";

/// Edges joined over some of the first edges, or one past them; R and M mostly repeat the left number.
fn some_join(random: &mut Random, count: usize) -> Join {
    let limit = u8::try_from(count).unwrap_or(255).saturating_add(1);
    let letter = LETTERS[usize::from(random.below(8) & 7)];
    let left = u32::from(random.below(limit));
    let right = u32::from(random.below(limit));
    let repeats = (letter == b'R' || letter == b'M') && random.below(8) != 0;
    Join {
        letter,
        left,
        right: if repeats { left } else { right },
    }
}

/// A list of steps that the card makes edges for.
fn some_list(tally: &mut Tally, random: &mut Random, card: &ClosedCard, reader: &Reader) -> List {
    let mut steps = List::new();
    for _ in 0..100 {
        let join = some_join(random, reader.known(steps.as_slice()));
        let answer = card.next_edge(steps.as_slice(), join.letter, join.left, join.right);
        tally.note(is_right(reader, steps.as_slice(), join, answer));
        if let Some(makes) = answer
            && steps.as_slice().len() < STEPS
        {
            steps.push(join.making(makes));
        }
    }
    steps
}

/// Turns a part of one step, if the list has the step.
fn spoil(random: &mut Random, steps: &mut [Step]) {
    let place = usize::from(random.below(16));
    let other = some_join(random, 30);
    let part = random.below(5);
    let Some(step) = steps.get_mut(place) else {
        return;
    };
    match part {
        0 => step.letter = other.letter,
        1 => step.left = other.left,
        2 => step.right = other.right,
        3 => step.makes.weight = step.makes.weight.saturating_add(1),
        _ => step.makes.target ^= 1,
    }
}

/// Reads each beginning of the list by both readers.
fn compare(outcome: &mut Outcome, card: &ClosedCard, reader: &Reader, steps: &[Step]) {
    // A beginning is told by where it ends.
    for end in 0..steps.len() {
        let answer = card.read(&steps[..end]);
        outcome.tally.note(answer == reader.read(&steps[..end]));
        match answer {
            Ok(()) => outcome.passed = outcome.passed.saturating_add(1),
            Err(Refusal::NoLoop) => outcome.unclosed = outcome.unclosed.saturating_add(1),
            Err(_) => {}
        }
    }
}

fn try_card(outcome: &mut Outcome, random: &mut Random) {
    let spans = [some_span(random, 2), some_span(random, 3)];
    let ties = [some_tie(random), some_tie(random), some_tie(random)];
    let parts = Parts {
        horizon: u16::from(random.below(12)) + 4,
        points: 4,
        spans: &spans,
        ties: &ties,
    };
    let card = build(parts);
    let reader = Reader::new(parts);
    let mut steps = some_list(&mut outcome.tally, random, &card, &reader);
    compare(outcome, &card, &reader, steps.as_slice());
    spoil(random, steps.as_mut_slice());
    compare(outcome, &card, &reader, steps.as_slice());
}

/// Tries so many cards.
pub fn try_cards(cards: u32) -> Outcome {
    let mut random = Random { state: 20 };
    let mut outcome = Outcome::default();
    for _ in 0..cards {
        try_card(&mut outcome, &mut random);
    }
    outcome
}
