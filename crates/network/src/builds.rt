//! What building calls make of a network.
ghost use Rattle.std.specs.Prelude.{◌≡◌, ◌≤◌};
ghost use Rattle.rules.specs.Calls.{fresh, open_answer, opened, answered, order_answer, ordered, span_fault, span_answer, spanned, among_fault, try_fault, tie_answer, tied, with_horizon};
ghost use Rattle.network.specs.Kept.{Kept, counted};
ghost use Rattle.network.specs.Model.{model};

use crate::content::Content;
use crate::network::Network;
use rules::parts::{Span, Tie};
use rules::refusal::Refusal;

/// The last minute that a card may have; a span lasts no longer, and a tie reaches no farther.
const MAX_MINUTES: u16 = 1440;

const MAX_GAP: i16 = 1440;

const MAX_POINTS: usize = 32;

const MAX_SPANS: usize = 8;

const MAX_TIES: usize = 96;

// What stands in a place that holds no span or tie yet. No default of theirs: a span lasts a minute or more, and a tie joins two points.
const NO_SPAN: Span = Span {
    start: 0,
    finish: 0,
    least: 0,
    most: 0,
};

const NO_TIE: Tie = Tie {
    from: 0,
    to: 0,
    gap: 0,
};

/// Whether a tie is among so many points, or why it is refused.
pub fn check_among(points: usize, tie: Tie) -> Result<(), Refusal>
    ensures { result ≡ answered (among_fault points tie) tt }
{
    if usize::from(tie.from) >= points || usize::from(tie.to) >= points {
        return Err(Refusal::NoPoint);
    }
    if tie.from == tie.to {
        return Err(Refusal::SamePoint);
    }
    if tie.gap < -MAX_GAP || tie.gap > MAX_GAP {
        return Err(Refusal::GapRange);
    }
    Ok(())
}

impl Network {
    /// Point 0 alone.
    pub fn fresh(horizon: u16) -> Network
        requires { (1 ≤ horizon) × (horizon ≤ 1440) }
        ensures { model result.content ≡ fresh horizon }
    {
        Network {
            content: Content {
                horizon,
                points: 1,
                spanned: 0,
                spans: [NO_SPAN; 8],
                tied: 0,
                ties: [NO_TIE; 97],
            },
        }
    }

    /// Makes the network anew: point 0 alone.
    pub fn open(&mut self, horizon: u16) -> Result<(), Refusal>
        ensures answer { result ≡ open_answer horizon }
        ensures card { model self.new.content ≡ opened horizon (model self.old.content) }
    {
        if horizon < 1 || horizon > MAX_MINUTES {
            return Err(Refusal::HorizonRange);
        }
        *self = Network::fresh(horizon);
        Ok(())
    }

    /// The next point, an order.
    pub fn add_order(&mut self) -> Result<u8, Refusal>
        ensures answer { result ≡ order_answer (model self.old.content) }
        ensures card { model self.new.content ≡ ordered (model self.old.content) }
    {
        let point = self.content.points;
        if point >= MAX_POINTS {
            return Err(Refusal::PointsFull);
        }
        self.content.points = point + 1;
        Ok(point as u8)
    }

    /// Whether a span can be added, or why it is refused.
    fn check_span(&self, start: u8, least: u16, most: u16) -> Result<(), Refusal>
        ensures { result ≡ answered (span_fault (model self.now.content) start least most) tt }
    {
        if usize::from(start) >= self.content.points {
            return Err(Refusal::NoPoint);
        }
        if self.is_finish(start) {
            return Err(Refusal::StartIsFinish);
        }
        if least < 1 || most < least || most > MAX_MINUTES {
            return Err(Refusal::BoundsRange);
        }
        if self.content.points >= MAX_POINTS {
            return Err(Refusal::PointsFull);
        }
        if self.content.spanned >= MAX_SPANS {
            return Err(Refusal::SpansFull);
        }
        Ok(())
    }

    /// The next span, and as its finish the next point.
    pub fn add_span(&mut self, start: u8, least: u16, most: u16) -> Result<u8, Refusal>
        ensures answer { result ≡ span_answer (model self.old.content) start least most }
        ensures card { model self.new.content ≡ spanned start least most (model self.old.content) }
    {
        self.check_span(start, least, most)?;
        let at = self.content.spanned;
        let finish = self.content.points as u8;
        self.content.spans[at] = Span {
            start,
            finish,
            least,
            most,
        };
        self.content.spanned = at + 1;
        self.content.points += 1;
        Ok(finish)
    }

    /// Whether a tie joins the points of the network, or why it is refused, whatever room there is for it.
    pub fn check_tie(&self, tie: Tie) -> Result<(), Refusal>
        ensures { result ≡ answered (try_fault (model self.now.content) tie) tt }
    {
        check_among(self.content.points, tie)
    }

    /// The next tie.
    pub fn add_tie(&mut self, tie: Tie) -> Result<usize, Refusal>
        ensures answer { result ≡ tie_answer (model self.old.content) tie }
        ensures card { model self.new.content ≡ tied tie (model self.old.content) }
    {
        self.check_tie(tie)?;
        let at = self.content.tied;
        if at >= MAX_TIES {
            return Err(Refusal::TiesFull);
        }
        self.content.ties[at] = tie;
        self.content.tied = at + 1;
        Ok(at)
    }

    /// The same network with another horizon.
    pub fn with_horizon(&self, horizon: u16) -> Network
        requires { (1 ≤ horizon) × (horizon ≤ 1440) }
        ensures { model result.content ≡ with_horizon (model self.now.content) horizon }
    {
        let mut content = self.content;
        content.horizon = horizon;
        Network { content }
    }

    /// The network of a content with the tie in its next place, which is on trial, among its ties.
    pub fn on_trial(content: &Content) -> Network
        requires { Kept (counted content.now) }
        ensures { result.content ≡ counted content.now }
    {
        let mut content = *content;
        content.tied += 1;
        Network { content }
    }
}
