//! The rules of a span at one place: L and X, and R.
ghost use Rattle.std.specs.Prelude.{◌<◌};
ghost use Rattle.rules.specs.Card.{span_count};
ghost use Rattle.explain.specs.Columns.{columns};
ghost use Rattle.explain.specs.Working.{card_of, Ready, Told, Lowered, Released};

use crate::search::Search;
use crate::tables::{lower_edge, lower_letter, wait_column};
use crate::work::{Best, Stop};

impl Search<'_> {
    /// L and X: from the start of span s to column x.
    pub(crate) fn lower(&mut self, s: usize, x: usize) -> Result<bool, Stop>
        requires ready { Ready self.old }
        requires place { (s < span_count (card_of self.old)) × (x < columns (card_of self.old)) }
        ensures { Told self.old self.new (Lowered self.old s x) result }
    {
        if x == wait_column(self.network, s) {
            return Ok(false);
        }
        let span = self.network.spans()[s];
        let Some(right) = self.edge(usize::from(span.finish), x) else {
            return Ok(false);
        };
        if right.weight >= 0 {
            return Ok(false);
        }
        let left = lower_edge(self.network, s);
        let start = usize::from(span.start);
        let step = self.joined(lower_letter(self.network, x), left, right, start, x);
        self.relax(start, x, step)
    }

    /// R: from p to the start of span s.
    pub(crate) fn release(&mut self, s: usize, p: usize) -> Result<bool, Stop>
        requires ready { Ready self.old }
        requires place { (s < span_count (card_of self.old)) × (p < (card_of self.old).points) }
        ensures { Told self.old self.new (Released self.old s p) result }
    {
        let Some(wait) = self.edge(p, wait_column(self.network, s)) else {
            return Ok(false);
        };
        let span = self.network.spans()[s];
        if wait.weight < -i32::from(span.least) {
            return Ok(false);
        }
        let again = Best { weight: 0, ..wait };
        let start = usize::from(span.start);
        let step = self.joined(b'R', wait, again, p, start);
        self.relax(p, start, step)
    }
}
