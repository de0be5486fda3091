//! Edges and steps, as the code holds them and as the definitions speak of them.

/// What an edge from p to q of weight w says.
#[derive(Clone, Copy, PartialEq, Eq, Debug)]
pub enum Kind {
    /// q comes at most w minutes after p. (In the field: an ordinary edge.)
    Plain,
    /// The span of this number, from p to q, may last as little as w. (A lower-case edge.)
    Lower(u8),
    /// As plain, as long as the span of this number, which q starts, has not finished: p waits for that finish,
    /// or until -w minutes after q. (An upper-case edge.)
    Wait(u8),
    /// As plain, if every span lasts its most. (An edge of the AllMax projection.)
    AllMost,
}

/// An edge of some kind leads from a point to a point and has a weight.
#[derive(Clone, Copy, PartialEq, Eq, Debug)]
pub struct Edge {
    pub kind: Kind,
    pub source: u8,
    pub target: u8,
    pub weight: i32,
}

/// A step of a list: its letter's code, the numbers of a left and a right edge, and the edge it makes.
/// (In the field: a reduction.)
// The letter is a number, as lists keep it, so that a list with a letter that names no rule can be read.
#[derive(Clone, Copy, PartialEq, Eq, Debug)]
pub struct Step {
    pub letter: u8,
    pub left: u32,
    pub right: u32,
    pub makes: Edge,
}
