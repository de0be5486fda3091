//! What a card holds, in arrays of a fixed size, so that no call depends on memory.
use rules::parts::{Span, Tie};

/// The first `points`, `spanned` and `tied` of each kind stand; of the 97 places for ties the last is spare.
#[derive(Clone, Copy)]
pub struct Content {
    pub horizon: u16,
    pub points: usize,
    pub spanned: usize,
    pub spans: [Span; 8],
    pub tied: usize,
    pub ties: [Tie; 97],
}
