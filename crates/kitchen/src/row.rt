//! Up to eight spans in a row, which the kitchens that hold their spans themselves share.
ghost use Rattle.std.specs.Prelude.{◌≡◌, ◌<◌, ◌≤◌, [], map, length, MatchResult, slice_index_or};
ghost use Rattle.rules.specs.declared.refusal.Refusal.TheVariants.{NoSpan};
ghost use Rattle.kitchen.specs.Tracks.{no_track, cold};
ghost use Rattle.kitchen.specs.Kitchens.{AllFit, Lawful, Bounds, Tells, Started};
ghost use Rattle.kitchen.specs.Endings.{next_track};
ghost use Rattle.kitchen.specs.Makes.{Made, Pushed};

use crate::bounded::Bounded;
use crate::track::{Status, Track};
use rules::refusal::Refusal;
use std::marker::Model;

/// The most spans that a kitchen has.
pub const MAX_SPANS: usize = 8;

/// The most minutes that a span lasts.
pub const MAX_MINUTES: u16 = 10_000;

/// Up to eight spans, seen as their list.
// An array and its length: a kitchen is Copy, and the kit's `ArrayVec` is Clone alone.
#[derive(Clone, Copy)]
pub struct Row {
    tracks: [Track; MAX_SPANS],
    count: usize,
}

impl Model for Row {
    ghost use Rattle.std.specs.Prelude.{◌-◌, ◌++◌, List, length, take, replicate};
    ghost use Rattle.kitchen.specs.declared.track.Track.{Track};
    ghost use Rattle.kitchen.specs.Tracks.{no_track};
    ghost use Rattle.kitchen.specs.Rows.{Filled, filled_again};

    ghost Value = { List Track };

    ghost view = { λ r. take r.count r.tracks };

    // The places past the last span are all the same, so the list tells the whole row.
    ghost invariant = { λ r. Filled r.tracks r.count };

    ghost inverse = { λ ts. record { tracks = ts ++ replicate (8 - length ts) no_track; count = length ts } };

    ghost inverse_ok = { λ r h i. let e = filled_again r.tracks r.count h in record { tracks = e.0 i; count = e.1 i } };
}

/// One minute more for each of these spans.
fn advance_all(tracks: &mut [Track], early: bool)
    requires { AllFit tracks.old (length tracks.old) }
    ensures { tracks.new ≡ map (next_track early) tracks.old }
{
    for track in tracks.iter_mut() {
        track.advance(early);
    }
}

impl Default for Row {
    ghost is_default = { λ r. r ≡ [] };

    /// No spans.
    fn default() -> Row {
        Row {
            tracks: [Track::default(); MAX_SPANS],
            count: 0,
        }
    }
}

impl<B: Bounded> TryFrom<&[B]> for Row {
    type Error = Refusal;

    ghost try_from_gives = { λ given made. Made (map B.bounds given.now) (λ row. row ≡ map cold (map B.bounds given.now)) made };

    /// A cold span for each of up to eight bounds.
    fn try_from(given: &[B]) -> Result<Row, Refusal> {
        if given.len() > MAX_SPANS {
            return Err(Refusal::SpansFull);
        }
        let mut row = Row::default();
        for bounded in given {
            let (least, most) = bounded.bounds();
            row.push(least, most)?;
        }
        Ok(row)
    }
}

impl Row {
    /// One span more, cold, unless its bounds are out of range.
    fn push(&mut self, least: u16, most: u16) -> Result<(), Refusal>
        requires { length self.old < 8 }
        ensures { Pushed self.old (least, most) result self.new }
    {
        if least < 1 || least > most || most > MAX_MINUTES {
            return Err(Refusal::BoundsRange);
        }
        self.tracks[self.count] = Track {
            least,
            most,
            status: Status::Cold,
        };
        self.count += 1;
        Ok(())
    }

    /// How many spans there are.
    pub fn len(&self) -> usize
        ensures { result ≡ length self.now }
    {
        self.count
    }

    /// A span as it is.
    fn track(&self, span: usize) -> Result<Track, Refusal>
        ensures { MatchResult result (λ t. (span < length self.now) × (t ≡ slice_index_or self.now span no_track)) (λ e. (length self.now ≤ span) × (e ≡ NoSpan)) }
    {
        self.tracks[..self.count]
            .get(span)
            .copied()
            .ok_or(Refusal::NoSpan)
    }

    /// The least and the most of a span.
    pub fn bounds(&self, span: usize) -> Result<(u16, u16), Refusal>
        ensures { Bounds self.now span result }
    {
        let track = self.track(span)?;
        Ok((track.least, track.most))
    }

    /// How far a span is.
    pub fn status(&self, span: usize) -> Result<Status, Refusal>
        ensures { Tells self.now span result }
    {
        Ok(self.track(span)?.status)
    }

    /// Starts a cold span.
    pub fn start(&mut self, span: usize) -> Result<(), Refusal>
        ensures { Started self.old span result self.new }
    {
        let Status::Cold = self.status(span)? else {
            return Err(Refusal::NotCold);
        };
        self.tracks[span].status = Status::On(0);
        Ok(())
    }

    /// One minute more for each span; where `early` is set, all that may end do.
    pub fn advance(&mut self, early: bool)
        requires { Lawful self.old }
        ensures { self.new ≡ map (next_track early) self.old }
    {
        advance_all(&mut self.tracks[..self.count], early);
    }
}
