//! A reader of step lists that was written on its own: it writes all edges of a card down, and holds each step's edge against its rule.
use crate::list::NO_EDGE;
use rules::edges::{Edge, Kind, Step};
use rules::parts::{Span, Tie};
use rules::refusal::Refusal;

/// A card as its parts, kept beside the card itself.
#[derive(Clone, Copy)]
pub struct Parts<'a> {
    pub horizon: u16,
    pub points: u8,
    pub spans: &'a [Span],
    pub ties: &'a [Tie],
}

fn edge(kind: Kind, source: u8, target: u8, weight: i32) -> Edge {
    Edge {
        kind,
        source,
        target,
        weight,
    }
}

/// The given edges of a point other than 0.
fn of_point(point: u8, horizon: u16) -> [Edge; 2] {
    [
        edge(Kind::Plain, 0, point, i32::from(horizon)),
        edge(Kind::Plain, point, 0, 0),
    ]
}

fn of_span(number: u8, span: Span) -> [Edge; 4] {
    let Span { start, finish, .. } = span;
    let least = i32::from(span.least);
    let most = i32::from(span.most);
    [
        edge(Kind::Plain, start, finish, most),
        edge(Kind::Plain, finish, start, -least),
        edge(Kind::Lower(number), start, finish, least),
        edge(Kind::Wait(number), finish, start, -most),
    ]
}

fn of_tie(tie: Tie) -> Edge {
    edge(Kind::Plain, tie.from, tie.to, i32::from(tie.gap))
}

/// Whether the made edge leads from the left one's source to the right one's target, where the two meet, and weighs their sum.
fn in_a_row(left: Edge, right: Edge, made: Edge) -> bool {
    let sum = i64::from(left.weight) + i64::from(right.weight);
    left.target == right.source
        && left.source == made.source
        && right.target == made.target
        && sum == i64::from(made.weight)
}

/// Whether the made edge is the left one but for its kind.
fn alike(left: Edge, made: Edge) -> bool {
    left.source == made.source && left.target == made.target && left.weight == made.weight
}

fn least_of(parts: Parts, span: u8) -> i32 {
    let span = parts.spans.get(usize::from(span));
    span.map_or(0, |span| i32::from(span.least))
}

/// Whether the kinds suit the letter.
fn kinds_suit(letter: u8, left: Kind, right: Kind, made: Kind) -> bool {
    // A step keeps its letter as a number.
    match (letter, left, right, made) {
        (b'N', Kind::Plain, Kind::Plain, Kind::Plain) => true,
        (b'U', Kind::Plain, Kind::Wait(s), Kind::Wait(t)) => s == t,
        (b'L', Kind::Lower(_), Kind::Plain, Kind::Plain) => true,
        (b'X', Kind::Lower(k), Kind::Wait(s), Kind::Wait(t)) => s == t && s != k,
        (b'R', Kind::Wait(_), _, Kind::Plain) => true,
        (b'M', Kind::Plain | Kind::Wait(_), _, Kind::AllMost) => true,
        (b'S', Kind::AllMost, Kind::AllMost, Kind::AllMost) => true,
        _ => false,
    }
}

/// Whether the wait is no longer than the least of its span.
fn is_short(parts: Parts, wait: Edge) -> bool {
    match wait.kind {
        Kind::Wait(s) => i64::from(wait.weight) + i64::from(least_of(parts, s)) >= 0,
        _ => false,
    }
}

fn weights_suit(parts: Parts, step: Step, left: Edge, right: Edge) -> bool {
    match step.letter {
        b'L' | b'X' => right.weight < 0 && in_a_row(left, right, step.makes),
        b'R' => step.left == step.right && is_short(parts, left) && alike(left, step.makes),
        b'M' => step.left == step.right && alike(left, step.makes),
        _ => in_a_row(left, right, step.makes),
    }
}

/// No card that is tried has more given edges.
const GIVEN: usize = 64;

/// A card's parts, with all given edges written down.
// In an array, as a list's steps are.
#[derive(Clone, Copy)]
pub struct Reader<'a> {
    parts: Parts<'a>,
    given: [Edge; GIVEN],
    count: usize,
}

impl<'a> Reader<'a> {
    /// Writes the given edges down, in the order of their numbers.
    pub fn new(parts: Parts<'a>) -> Reader<'a> {
        let mut reader = Reader {
            parts,
            given: [NO_EDGE; GIVEN],
            count: 0,
        };
        // A point is its number.
        for point in 1..parts.points {
            reader.give(&of_point(point, parts.horizon));
        }
        for (number, span) in (0u8..).zip(parts.spans) {
            reader.give(&of_span(number, *span));
        }
        for tie in parts.ties {
            reader.give(&[of_tie(*tie)]);
        }
        reader
    }

    fn give(&mut self, edges: &[Edge]) {
        for edge in edges {
            if self.count < GIVEN {
                self.given[self.count] = *edge;
                self.count += 1;
            }
        }
    }

    /// How many edges are known after these steps.
    pub fn known(&self, steps: &[Step]) -> usize {
        self.count.saturating_add(steps.len())
    }

    /// The edge of a number after these steps: a given one, or one that a step made.
    pub fn edge(&self, steps: &[Step], number: u32) -> Option<Edge> {
        let number = number as usize;
        match number.checked_sub(self.count) {
            Some(place) => steps.get(place).map(|step| step.makes),
            None => self.given.get(number).copied(),
        }
    }

    /// Whether a step is lawful after these.
    pub fn is_lawful(&self, steps: &[Step], step: Step) -> bool {
        let Some(left) = self.edge(steps, step.left) else {
            return false;
        };
        let Some(right) = self.edge(steps, step.right) else {
            return false;
        };
        let made = step.makes;
        (-1_000_000..=1_000_000).contains(&made.weight)
            && kinds_suit(step.letter, left.kind, right.kind, made.kind)
            && weights_suit(self.parts, step, left, right)
    }

    /// Reads a list, as a card does.
    pub fn read(&self, steps: &[Step]) -> Result<(), Refusal> {
        for (place, step) in steps.iter().enumerate() {
            if !self.is_lawful(&steps[..place], *step) {
                return Err(Refusal::StepUnlawful(place));
            }
        }
        match steps.last() {
            Some(Step { makes, .. }) if makes.source == makes.target && makes.weight < 0 => Ok(()),
            _ => Err(Refusal::NoLoop),
        }
    }
}
