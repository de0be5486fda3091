//! The edges of every range of the building calls.
use crate::calls::try_call;
use crate::tally::Tally;
use card::open::OpenCard;
use rules::parts::{Span, Tie};
use rules::refusal::Refusal;

pub fn horizons() -> Tally {
    let mut tally = Tally::default();
    for horizon in 0..3000u16 {
        let mut card = OpenCard::new();
        let _ = card.add_order();
        let expected = (!(1..=1440).contains(&horizon)).then_some(1);
        try_call(&mut tally, &mut card, expected, |card| card.open(horizon));
        tally.note(
            expected.is_some()
                || card.network().horizon() == horizon && card.network().points() == 1,
        );
    }
    tally
}

const BOUNDS: [u16; 8] = [0, 1, 2, 1439, 1440, 1441, 1442, 65535];

fn try_bounds(tally: &mut Tally, least: u16, most: u16) {
    let mut card = OpenCard::new();
    let expected = (least == 0 || most == 0 || least > most || most > 1440).then_some(5);
    try_call(tally, &mut card, expected, |card| {
        card.add_span(0, least, most)
    });
    let made = Span {
        start: 0,
        finish: 1,
        least,
        most,
    };
    let stands = card.network().span(0) == Some(made);
    tally.note(stands == expected.is_none() && card.network().is_finish(1) == stands);
}

pub fn bounds() -> Tally {
    let mut tally = Tally::default();
    for least in BOUNDS {
        for most in BOUNDS {
            try_bounds(&mut tally, least, most);
        }
    }
    tally
}

fn try_gap(tally: &mut Tally, gap: i16) {
    let mut card = OpenCard::new();
    let _ = card.add_order();
    let expected = (!(-1440..=1440).contains(&gap)).then_some(8);
    let tie = Tie {
        from: 1,
        to: 0,
        gap,
    };
    try_call(tally, &mut card, expected, |card| card.add_tie(tie));
    tally.note((card.network().tie(0) == Some(tie)) == expected.is_none());
}

pub fn gaps() -> Tally {
    let mut tally = Tally::default();
    for gap in -1500..1500i16 {
        try_gap(&mut tally, gap);
    }
    try_gap(&mut tally, i16::MIN);
    try_gap(&mut tally, i16::MAX);
    tally
}

/// Makes one call so many times, past the room that there is for it; then it is refused by this number.
fn try_room<T: Drop, F: Fn(&mut OpenCard) -> Result<T, Refusal>>(
    tally: &mut Tally,
    card: &mut OpenCard,
    calls: usize,
    room: usize,
    full: u8,
    call: F,
)
    requires { F.IsAlwaysCallable call }
{
    // The count tells when the room is used up.
    for made in 0..calls {
        try_call(tally, card, (made >= room).then_some(full), &call);
    }
}

/// Calls of one kind in a row, past the room that there is for them.
pub fn rooms() -> Tally {
    let mut tally = Tally::default();
    let mut card = OpenCard::new();
    let tie = Tie {
        from: 31,
        to: 30,
        gap: 0,
    };
    try_room(&mut tally, &mut card, 39, 31, 2, |card| card.add_order());
    try_room(&mut tally, &mut card, 100, 96, 9, |card| card.add_tie(tie));
    let _ = card.open(1440);
    try_room(&mut tally, &mut card, 10, 8, 6, |card| {
        card.add_span(0, 1440, 1440)
    });
    tally
}
