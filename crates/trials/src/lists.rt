//! Step lists by hand: what the reader says to each.
use crate::list::List;
use crate::tally::Tally;
use card::closed::ClosedCard;
use card::open::OpenCard;
use rules::edges::{Edge, Kind, Step};
use rules::parts::Tie;
use rules::refusal::Refusal;

/// Spans from 0 of 2 to 3 with the finishes 1 and 2, and ties from finish to finish. Given: 0 to 3 of the points, 4 to 7 and 8 to 11 of the
/// spans (lower 6 and 10, wait 7 and 11), 12 and 13 of the ties.
fn two_spans() -> ClosedCard {
    let mut card = OpenCard::new();
    let _ = card.open(9);
    for _ in 0..2 {
        let _ = card.add_span(0, 2, 3);
    }
    for _ in 0..2 {
        let _ = card.add_tie(Tie {
            from: 1,
            to: 2,
            gap: 1,
        });
    }
    card.close()
}

fn wait(span: u8, source: u8, weight: i32) -> Edge {
    Edge {
        kind: Kind::Wait(span),
        source,
        target: 0,
        weight,
    }
}

/// What the card says to a list of the step U 12 11, whose edge it makes itself (edge 14, wait 1 to 0 of -2 for span 1), and of this one.
fn after_wait(
    card: &ClosedCard,
    // a number, as a step keeps it
    letter: u8,
    left: u32,
    right: u32,
    makes: Edge,
) -> Result<(), Refusal> {
    let mut steps = List::new();
    steps.add(card, b'U', 12, 11);
    steps.push(Step {
        letter,
        left,
        right,
        makes,
    });
    card.read(steps.as_slice())
}

/// What the card says where the second step is lawful, and where it is not.
const LAWFUL: Result<(), Refusal> = Err(Refusal::NoLoop);

const UNLAWFUL: Result<(), Refusal> = Err(Refusal::StepUnlawful(1));

/// What R makes of edge 14, and what M does.
const RELEASED: Edge = Edge {
    kind: Kind::Plain,
    source: 1,
    target: 0,
    weight: -2,
};

const PROJECTED: Edge = Edge {
    kind: Kind::AllMost,
    source: 1,
    target: 0,
    weight: -2,
};

/// X: another span, the wait's span on the made edge, a lower edge that meets the wait.
fn spans_of_x(tally: &mut Tally, card: &ClosedCard) {
    tally.note(after_wait(card, b'X', 6, 14, wait(1, 0, 0)) == LAWFUL);
    tally.note(after_wait(card, b'X', 6, 14, wait(0, 0, 0)) == UNLAWFUL);
    tally.note(after_wait(card, b'X', 6, 7, wait(0, 0, -1)) == UNLAWFUL);
    tally.note(after_wait(card, b'X', 10, 14, wait(1, 0, 0)) == UNLAWFUL);
}

/// R and M: the same number twice, and for R a wait that is short enough.
fn numbers_of_r_and_m(tally: &mut Tally, card: &ClosedCard) {
    let long = Edge {
        source: 2,
        weight: -3,
        ..RELEASED
    };
    let tie = Edge {
        target: 2,
        weight: 1,
        ..PROJECTED
    };
    tally.note(after_wait(card, b'R', 14, 14, RELEASED) == LAWFUL);
    tally.note(after_wait(card, b'R', 14, 11, RELEASED) == UNLAWFUL);
    tally.note(after_wait(card, b'R', 11, 11, long) == UNLAWFUL);
    tally.note(after_wait(card, b'M', 14, 14, PROJECTED) == LAWFUL);
    tally.note(after_wait(card, b'M', 14, 12, PROJECTED) == UNLAWFUL);
    tally.note(after_wait(card, b'M', 12, 12, tie) == LAWFUL);
    tally.note(after_wait(card, b'M', 12, 13, tie) == UNLAWFUL);
}

/// Edges that are not made yet: the step's own, the next, one far off.
fn references(tally: &mut Tally, card: &ClosedCard) {
    tally.note(after_wait(card, b'M', 15, 15, PROJECTED) == UNLAWFUL);
    tally.note(after_wait(card, b'M', 16, 16, PROJECTED) == UNLAWFUL);
    tally.note(after_wait(card, b'U', 15, 14, wait(1, 1, -2)) == UNLAWFUL);
    tally.note(after_wait(card, b'M', u32::MAX, u32::MAX, PROJECTED) == UNLAWFUL);
}

pub fn side_conditions() -> Tally {
    let mut tally = Tally::default();
    let card = two_spans();
    spans_of_x(&mut tally, &card);
    numbers_of_r_and_m(&mut tally, &card);
    references(&mut tally, &card);
    tally
}

/// Of all letters R alone makes a plain edge of edge 14, and M alone an all-most edge.
pub fn letters() -> Tally {
    let mut tally = Tally::default();
    let card = two_spans();
    for letter in 0..255u8 {
        let released = after_wait(&card, letter, 14, 14, RELEASED);
        let projected = after_wait(&card, letter, 14, 14, PROJECTED);
        tally.note((released == LAWFUL) == (letter == b'R'));
        tally.note((projected == LAWFUL) == (letter == b'M'));
    }
    tally
}

/// Whether R of edge 14 is lawful with this edge.
fn releases(card: &ClosedCard, makes: Edge) -> bool {
    after_wait(card, b'R', 14, 14, makes) == LAWFUL
}

/// The edge must be the one that the step makes, in every part.
pub fn made_edges() -> Tally {
    let mut tally = Tally::default();
    let card = two_spans();
    for weight in -5..2i32 {
        tally.note(releases(&card, Edge { weight, ..RELEASED }) == (weight == -2));
    }
    for point in 0..4u8 {
        let from = Edge {
            source: point,
            ..RELEASED
        };
        let to = Edge {
            target: point,
            ..RELEASED
        };
        tally.note(releases(&card, from) == (point == 1));
        tally.note(releases(&card, to) == (point == 0));
        tally.note((after_wait(&card, b'X', 6, 14, wait(point, 0, 0)) == LAWFUL) == (point == 1));
    }
    let lower = Edge {
        kind: Kind::Lower(1),
        ..RELEASED
    };
    tally.note(!releases(&card, lower) && !releases(&card, wait(1, 1, -2)));
    tally
}
