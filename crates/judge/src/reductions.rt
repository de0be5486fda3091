//! What the given edges and the rules L, X and R make fall. Each part answers whether something fell.
ghost use Rattle.std.specs.Prelude.{◌<◌};
ghost use Rattle.rules.specs.Card.{span_count, tie_count};
ghost use Rattle.judge.specs.declared.target.Target.TheVariants.{Start};
ghost use Rattle.judge.specs.Closing.{In, Besides, Lowered, Freed, Tied, Spanned, SpanRules};
ghost use Rattle.judge.specs.Falling.{card_of, Sound, Told};

use crate::parts::{span_of, tie_of};
use crate::relaxation::Relaxation;
use crate::target::{NegativeLoop, Target};

// That s is a span, p a point and x a target of the card is a clause: they are places at which tables are read.
impl Relaxation<'_> {
    /// The edge of tie i.
    pub(crate) fn hold_tie(&mut self, i: usize) -> Result<bool, NegativeLoop>
        requires sound { Sound self.old }
        requires tie { i < tie_count (card_of self.old) }
        ensures { Told self.old self.new (Tied (card_of self.old) self.old.closure i) result }
    {
        let tie = tie_of(self.network, i);
        let to = Target::Point(usize::from(tie.to));
        self.relax(usize::from(tie.from), to, i32::from(tie.gap))
    }

    /// The plain edges and the wait of span s.
    fn hold_span(&mut self, s: usize) -> Result<bool, NegativeLoop>
        requires sound { Sound self.old }
        requires span { s < span_count (card_of self.old) }
        ensures { Told self.old self.new (Spanned (card_of self.old) self.old.closure s) result }
    {
        let span = span_of(self.network, s);
        let start = usize::from(span.start);
        let finish = usize::from(span.finish);
        let most = i32::from(span.most);
        let least = i32::from(span.least);
        let later = self.relax(start, Target::Point(finish), most)?;
        let sooner = self.relax(finish, Target::Point(start), -least)?;
        let waiting = self.relax(finish, Target::Start(s), -most)?;
        Ok(later | sooner | waiting)
    }

    /// L and X at one place: from the start of span s, by its finish, to x.
    fn lower(&mut self, s: usize, x: Target) -> Result<bool, NegativeLoop>
        requires sound { Sound self.old }
        requires span { s < span_count (card_of self.old) }
        requires target { (In (card_of self.old) x) × (Besides s x) }
        ensures { Told self.old self.new (Lowered (card_of self.old) self.old.closure s x) result }
    {
        let span = span_of(self.network, s);
        let weight = self.closure.at(usize::from(span.finish), x);
        if weight >= 0 {
            return Ok(false);
        }
        self.relax(usize::from(span.start), x, i32::from(span.least) + weight)
    }

    /// X of span s, to the start of another.
    fn cross(&mut self, s: usize, other: usize) -> Result<bool, NegativeLoop>
        requires sound { Sound self.old }
        requires spans { (s < span_count (card_of self.old)) × (other < span_count (card_of self.old)) }
        ensures { Told self.old self.new (Lowered (card_of self.old) self.old.closure s (Start other)) result }
    {
        if other == s {
            return Ok(false);
        }
        self.lower(s, Target::Start(other))
    }

    /// R at one place: from p to the start of span s.
    fn free(&mut self, s: usize, p: usize) -> Result<bool, NegativeLoop>
        requires sound { Sound self.old }
        requires span { s < span_count (card_of self.old) }
        requires point { p < (card_of self.old).points }
        ensures { Told self.old self.new (Freed (card_of self.old) self.old.closure s p) result }
    {
        let span = span_of(self.network, s);
        let weight = self.closure.at(p, Target::Start(s));
        if weight < -i32::from(span.least) {
            return Ok(false);
        }
        self.relax(p, Target::Point(usize::from(span.start)), weight)
    }

    /// The rules of span s.
    pub(crate) fn span_rules(&mut self, s: usize) -> Result<bool, NegativeLoop>
        requires sound { Sound self.old }
        requires span { s < span_count (card_of self.old) }
        ensures { Told self.old self.new (SpanRules (card_of self.old) self.old.closure s) result }
    {
        let points = self.network.points();
        let spans = self.network.span_count();
        let given = self.hold_span(s)?;
        let lowered = self.each(points, |tables, q| tables.lower(s, Target::Point(q)))?;
        let crossed = self.each(spans, |tables, other| tables.cross(s, other))?;
        let freed = self.each(points, |tables, p| tables.free(s, p))?;
        Ok(given | lowered | crossed | freed)
    }
}
