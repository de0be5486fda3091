//! What happens to a point.

/// A point is given as an order, or finishes.
#[derive(Clone, Copy, PartialEq, Eq, Debug)]
pub enum Event {
    /// The controller gives an order.
    Order,
    /// A span ends.
    Finish,
}
