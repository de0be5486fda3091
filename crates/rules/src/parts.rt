//! The parts of a card, as the code holds them and as the definitions speak of them.

/// What an order starts and the food ends, `least` to `most` minutes later.
/// (In the field: a contingent link. Its finish is a contingent time-point; an order is an executable one.)
#[derive(Clone, Copy, PartialEq, Eq, Debug)]
pub struct Span {
    pub start: u8,
    pub finish: u8,
    pub least: u16,
    pub most: u16,
}

/// The minute of `to` minus the minute of `from` is at most `gap`. (In the field: a constraint.)
#[derive(Clone, Copy, PartialEq, Eq, Debug)]
pub struct Tie {
    pub from: u8,
    pub to: u8,
    pub gap: i16,
}
