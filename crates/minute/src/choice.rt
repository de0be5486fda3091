//! Whether an order can be given in a minute, and whether it can be held past it: each test looks once at each point and span.
ghost use Rattle.std.specs.Prelude.{◌≡◌, ℕ, suc, ◌-◌, ◌<◌, pos, ◌+ℤ◌, ◌≤ℤ◌, Some as Happened, None as Nothing, Decides};
ghost use Rattle.rules.specs.Card.{span_count};
ghost use Rattle.rules.specs.Game.{CanGive, CanHold};
ghost use Rattle.network.specs.Model.{model};
ghost use Rattle.judge.specs.Closures.{distance, wait, entry, Placed};
ghost use Rattle.minute.specs.Minutes.{at, marked};
ghost use Rattle.minute.specs.Deciding.{WithinMinute, Open, PointsAllow, SpansAllow, soonest};

use crate::playing::Minute;
use crate::position::Position;
use judge::closure::Closure;
use judge::target::Target;
use rules::parts::Span;

/// What the controller chooses by in a minute: tables that win, and a position that fits them.
#[derive(Clone, Copy)]
pub struct Choice<'a> {
    pub minute: Minute<'a>,
    pub closure: &'a Closure,
    pub position: &'a Position,
    // the points that can no longer happen in the minute; finishes are among them. By points, as the position, for this minute alone.
    pub late: &'a [bool; 32],
    ghost fits: { ∥ WithinMinute (model minute.network.now.content) closure.now minute.t (marked late.now) (at position.now.minutes) ∥₁ },
}

impl Choice<'_> {
    /// The minute of a point, or the first in which it still may happen.
    fn soonest(&self, p: usize) -> u16
        requires { p < 32 }
        ensures { result ≡ soonest self.now.minute.t (at self.now.position.now.minutes p) (marked self.now.late.now p) }
    {
        match self.position.get(p) {
            Some(a) => a,
            None if self.late[p] => self.minute.t + 1,
            None => self.minute.t,
        }
    }

    /// Whether the point p, at the soonest, comes no later after this minute than the weight from q to x.
    fn comes_in_time(&self, p: usize, q: usize, x: Target) -> bool
        requires { (p < 32) × (q < 32) × (Placed 32 8 x) }
        ensures { Decides result (pos (soonest self.now.minute.t (at self.now.position.now.minutes p) (marked self.now.late.now p)) ≤ℤ (pos self.now.minute.t +ℤ entry self.now.closure.now q x)) }
    {
        i32::from(self.soonest(p)) - i32::from(self.minute.t) <= self.closure.at(q, x)
    }

    /// No point is too late or too early for q in this minute.
    fn points_allow(&self, q: usize) -> bool
        requires { q < 32 }
        ensures { Decides result (PointsAllow (distance self.now.closure.now) self.now.minute.t (marked self.now.late.now) (at self.now.position.now.minutes) q (model self.now.minute.network.now.content).points) }
    {
        (0..self.minute.network.points()).all(|p| self.comes_in_time(p, q, Target::Point(p)))
    }

    // The number beside the span: the tables are asked by it.
    /// Whether span s, if it has not finished, does not start too late for q in this minute.
    fn span_allows(&self, q: usize, s: usize, span: &Span) -> bool
        requires { (q < 32) × (s < 8) × (span.now.start < 32) }
        ensures { Decides result (at self.now.position.now.minutes span.now.finish ≡ Nothing → pos (soonest self.now.minute.t (at self.now.position.now.minutes span.now.start) (marked self.now.late.now span.now.start)) ≤ℤ (pos self.now.minute.t +ℤ wait self.now.closure.now s q)) }
    {
        self.position.get(usize::from(span.finish)).is_some()
            || self.comes_in_time(usize::from(span.start), q, Target::Start(s))
    }

    /// No span that has not finished starts too late for q in this minute.
    fn spans_allow(&self, q: usize) -> bool
        requires { q < 32 }
        ensures { Decides result (SpansAllow (model self.now.minute.network.now.content) (wait self.now.closure.now) self.now.minute.t (marked self.now.late.now) (at self.now.position.now.minutes) q (span_count (model self.now.minute.network.now.content))) }
    {
        let spans = self.minute.network.spans();
        spans
            .iter()
            .enumerate()
            .all(|(s, span)| self.span_allows(q, s, span))
    }

    /// Whether the controller can win with the order q given in this minute.
    pub fn can_give(&self, q: usize) -> bool
        requires { Open (model self.now.minute.network.now.content) (marked self.now.late.now) (at self.now.position.now.minutes) q }
        ensures { Decides result (CanGive (model self.now.minute.network.now.content) ((model self.now.minute.network.now.content).horizon - self.now.minute.t) self.now.minute.t (at self.now.position.now.minutes) (marked self.now.late.now) q) }
    {
        self.points_allow(q) && self.spans_allow(q)
    }

    /// Whether the point p, if it has happened, lets q happen past this minute.
    fn lets_hold(&self, q: usize, p: usize) -> bool
        requires { (q < 32) × (p < 32) }
        ensures { Decides result ((a : ℕ) → at self.now.position.now.minutes p ≡ Happened a → pos (suc self.now.minute.t) ≤ℤ (pos a +ℤ distance self.now.closure.now p q)) }
    {
        match self.position.get(p) {
            Some(a) => {
                i32::from(self.minute.t) - i32::from(a) < self.closure.at(p, Target::Point(q))
            }
            None => true,
        }
    }

    /// Whether the controller can win with the order q held past this minute.
    pub fn can_hold(&self, q: usize) -> bool
        requires { Open (model self.now.minute.network.now.content) (marked self.now.late.now) (at self.now.position.now.minutes) q }
        ensures { Decides result (CanHold (model self.now.minute.network.now.content) ((model self.now.minute.network.now.content).horizon - self.now.minute.t) self.now.minute.t (at self.now.position.now.minutes) (marked self.now.late.now) q) }
    {
        (0..self.minute.network.points()).all(|p| self.lets_hold(q, p))
    }
}
