//! A rest: what it adds to bounds and to a status, and the count of advances since a span was done.
ghost use Rattle.std.specs.Prelude.{◌≡◌, ◌≤◌, map, slice_index_or};
ghost use Rattle.kitchen.specs.Tracks.{no_track, elapsed};
ghost use Rattle.kitchen.specs.Rests.{rest_for, told_status, first_eight, fresh, count_next, Counted};

use crate::interface::Kitchen;
use crate::row::{MAX_MINUTES, MAX_SPANS};
use crate::track::Status;

/// The longest rest.
pub const MAX_REST: u16 = 240;

/// The rest of a span.
#[derive(Clone, Copy, PartialEq, Eq, Debug, Default)]
pub struct Rest {
    /// How long it was given.
    pub minutes: u16,
    /// The advances since the span was first seen done.
    pub count: u16,
}

impl Rest {
    /// The minutes that count for a span of this most.
    pub(crate) fn within(self, most: u16) -> u16
        requires { most ≤ 10000 }
        ensures { result ≡ rest_for self.minutes most }
    {
        self.minutes.min(MAX_REST).min(MAX_MINUTES - most)
    }

    /// How a status is told of a span of this most.
    pub(crate) fn tell(self, most: u16, status: Status) -> Status
        requires { (most ≤ 10000) × (elapsed status ≤ 10000) }
        ensures { result ≡ told_status (rest_for self.minutes most) self.count status }
    {
        let minutes = self.within(most);
        match status {
            Status::Done(d) if self.count < minutes => Status::On(d + self.count),
            Status::Done(d) => Status::Done(d + minutes),
            Status::Cold | Status::On(_) => status,
        }
    }
}

/// The rests of the first eight spans, where a missing one is 0.
pub fn eight(rests: &[u16]) -> [Rest; MAX_SPANS]
    ensures { result ≡ map fresh (first_eight rests.now) }
{
    let mut first = [Rest::default(); MAX_SPANS];
    // By number: there may be fewer rests than spans.
    for (span, rest) in first.iter_mut().enumerate() {
        rest.minutes = rests.get(span).copied().unwrap_or(0);
    }
    first
}

/// The count of a span after the next advance of a kitchen.
fn count_after<K: Kitchen>(kitchen: &K, span: usize, count: u16) -> u16
    ensures { result ≡ count_next (slice_index_or (K.Kitchen.spans kitchen.now) span no_track).status count }
{
    if kitchen.status(span).is_ok_and(|status| status.is_done()) {
        count.saturating_add(1).min(MAX_REST)
    } else {
        0
    }
}

/// Counts the next advance of a kitchen.
// An array, as a resting kitchen keeps its rests.
pub fn count_advance<K: Kitchen>(kitchen: &K, rests: &mut [Rest; MAX_SPANS])
    ensures { Counted (K.Kitchen.spans kitchen.now) rests.old rests.new }
{
    // By number: a kitchen is asked for a span by its number.
    for (span, rest) in rests.iter_mut().enumerate() {
        rest.count = count_after(kitchen, span, rest.count);
    }
}
