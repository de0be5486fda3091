//! Where the edges lead whose weights the tables hold.

/// A point, or the start of a span, for as long as the span has not finished.
#[derive(Clone, Copy, PartialEq, Eq, Debug)]
pub enum Target {
    Point(usize),
    Start(usize),
}

/// Why no tables close: a derived edge from a point to itself weighs less than 0.
#[derive(Clone, Copy, PartialEq, Eq, Debug)]
pub struct NegativeLoop;
