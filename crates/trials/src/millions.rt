//! Weights at the limit of a million: loops that are doubled by N up to it, and one step over it.
use crate::list::List;
use crate::tally::Tally;
use card::closed::ClosedCard;
use card::open::OpenCard;
use rules::edges::{Edge, Kind, Step};
use rules::parts::Tie;
use rules::refusal::Refusal;

/// Point 1, and 0 to 1 by way of a tie of this gap: the loop 0 to 0 of the gap is made by N 2 1.
fn gap_card(gap: i16) -> ClosedCard {
    let mut card = OpenCard::new();
    let _ = card.open(1000);
    let _ = card.add_order();
    for gap in [gap, 1, -1] {
        let _ = card.add_tie(Tie {
            from: 0,
            to: 1,
            gap,
        });
    }
    card.close()
}

/// Doubles a loop of a thousand nine times, then adds up to a million: edges 5 to 14 weigh 1, 2, 4 .. 512 thousand.
fn to_a_million(card: &ClosedCard) -> List {
    let mut steps = List::new();
    steps.add(card, b'N', 2, 1);
    for number in 5..14u32 {
        steps.add(card, b'N', number, number);
    }
    for (left, right) in [(14, 13), (15, 12), (16, 11), (17, 10), (18, 8)] {
        steps.add(card, b'N', left, right);
    }
    steps
}

/// Whether 15 steps stand, and the last makes an edge of this weight.
fn ends_at(steps: &[Step], weight: i32) -> bool {
    steps.len() == 15 && steps.last().is_some_and(|step| step.makes.weight == weight)
}

/// One step over the limit, that claims this weight.
fn try_over(tally: &mut Tally, card: &ClosedCard, steps: &mut List, tie: u32, weight: i32) {
    let makes = Edge {
        kind: Kind::Plain,
        source: 0,
        target: 1,
        weight,
    };
    tally.note(card.next_edge(steps.as_slice(), b'N', 19, tie).is_none());
    steps.push(Step {
        letter: b'N',
        left: 19,
        right: tie,
        makes,
    });
    tally.note(card.read(steps.as_slice()) == Err(Refusal::StepUnlawful(15)));
    steps.pop();
}

/// Up to a million, over it, and down to less than minus a million.
pub fn millions() -> Tally {
    let mut tally = Tally::default();
    let up = gap_card(1000);
    let mut steps = to_a_million(&up);
    tally.note(ends_at(steps.as_slice(), 1_000_000));
    tally.note(up.read(steps.as_slice()) == Err(Refusal::NoLoop));
    for weight in [1_000_001, 1_000_000, i32::MAX] {
        try_over(&mut tally, &up, &mut steps, 3, weight);
    }
    let down = gap_card(-1000);
    let mut steps = to_a_million(&down);
    tally.note(ends_at(steps.as_slice(), -1_000_000));
    tally.note(down.read(steps.as_slice()) == Ok(()));
    for weight in [-1_000_001, -1_000_000, i32::MIN] {
        try_over(&mut tally, &down, &mut steps, 4, weight);
    }
    steps.add(&down, b'M', 19, 19);
    tally.note(steps.as_slice().len() == 16 && down.read(steps.as_slice()) == Ok(()));
    tally
}
