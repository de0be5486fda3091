//! The order of checks: every combination of faults, against the order in which they count.
use crate::calls::try_call;
use crate::tally::Tally;
use card::open::OpenCard;
use rules::parts::Tie;

/// A card whose point 1 is a finish, with so many points, spans and ties or a few more.
fn card_with(points: usize, spans: usize, ties: usize) -> OpenCard {
    let mut card = OpenCard::new();
    for _ in 0..spans {
        let _ = card.add_span(0, 1, 2);
    }
    for _ in 0..points {
        if card.network().points() < points {
            let _ = card.add_order();
        }
    }
    for _ in 0..ties {
        let _ = card.add_tie(Tie {
            from: 0,
            to: 1,
            gap: 5,
        });
    }
    card
}

fn try_span(tally: &mut Tally, points: usize, spans: usize, start: u8, least: u16, most: u16) {
    let mut card = card_with(points, spans, 0);
    let faults = [
        (usize::from(start) >= card.network().points()).then_some(3),
        (start == 1).then_some(4),
        (least == 0 || least > most || most > 1440).then_some(5),
        (points == 32).then_some(2),
        (spans == 8).then_some(6),
    ];
    let first = faults.into_iter().flatten().next();
    try_call(tally, &mut card, first, |card| {
        card.add_span(start, least, most)
    });
}

const STARTS: [u8; 8] = [0, 1, 11, 12, 31, 32, 40, 255];

const BOUNDS: [(u16, u16); 5] = [(2, 2), (0, 2), (3, 2), (2, 1441), (1441, 1441)];

/// Spans: 3, 4, 5, 2, 6.
pub fn span_faults() -> Tally {
    let mut tally = Tally::default();
    for start in STARTS {
        for (least, most) in BOUNDS {
            for (points, spans) in [(12, 1), (32, 1), (12, 8), (32, 8)] {
                try_span(&mut tally, points, spans, start, least, most);
            }
        }
    }
    tally
}

fn try_tie(tally: &mut Tally, ties: usize, tie: Tie) {
    let mut card = card_with(6, 1, ties);
    let faults = [
        (tie.from > 5 || tie.to > 5).then_some(3),
        (tie.from == tie.to).then_some(7),
        (!(-1440..=1440).contains(&tie.gap)).then_some(8),
        (ties == 96).then_some(9),
    ];
    let first = faults.into_iter().flatten().next();
    try_call(tally, &mut card, first, |card| card.add_tie(tie));
}

const ENDS: [(u8, u8); 7] = [(0, 1), (5, 2), (6, 0), (0, 6), (6, 6), (6, 7), (3, 3)];

const GAPS: [i16; 6] = [0, 1440, -1440, 1441, -1441, 32767];

/// Ties: 3, 7, 8, 9.
pub fn tie_faults() -> Tally {
    let mut tally = Tally::default();
    for (from, to) in ENDS {
        for gap in GAPS {
            for ties in [0, 95, 96] {
                try_tie(&mut tally, ties, Tie { from, to, gap });
            }
        }
    }
    tally
}
