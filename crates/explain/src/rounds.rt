//! Rounds of the search: every rule at every place. What goes by way of point 0 comes last, since it hardly ever helps.
ghost use Rattle.std.specs.Prelude.{◌<◌};
ghost use Rattle.rules.specs.Card.{span_count};
ghost use Rattle.explain.specs.Columns.{columns};
ghost use Rattle.explain.specs.Working.{card_of, Ready, Told, Below, Chained, Lowered, Released, Rounded, Saturated};

use crate::search::Search;
use crate::tables::width;
use crate::work::Stop;

impl Search<'_> {
    /// N and U from p by way of q.
    fn chain_from(&mut self, p: usize, q: usize) -> Result<bool, Stop>
        requires ready { Ready self.old }
        requires place { (p < (card_of self.old).points) × (q < (card_of self.old).points) }
        ensures { Told self.old self.new (Below (columns (card_of self.old)) (Chained self.old p q)) result }
    {
        self.each(0..width(self.network), |search, x| search.chain(p, q, x))
    }

    /// N and U by way of q.
    fn chain_by(&mut self, q: usize) -> Result<bool, Stop>
        requires ready { Ready self.old }
        requires place { q < (card_of self.old).points }
        ensures { Told self.old self.new (Below (card_of self.old).points (λ p. Below (columns (card_of self.old)) (Chained self.old p q))) result }
    {
        self.each(
            0..self.network.points(),
            |search, p| search.chain_from(p, q),
        )
    }

    /// N and U by way of every point but 0.
    fn chain_all(&mut self) -> Result<bool, Stop>
        requires ready { Ready self.old }
        ensures { Told self.old self.new (Below (card_of self.old).points (λ q. 0 < q → Below (card_of self.old).points (λ p. Below (columns (card_of self.old)) (Chained self.old p q)))) result }
    {
        self.each(1..self.network.points(), |search, q| search.chain_by(q))
    }

    /// L and X of span s.
    fn lower_all(&mut self, s: usize) -> Result<bool, Stop>
        requires ready { Ready self.old }
        requires place { s < span_count (card_of self.old) }
        ensures { Told self.old self.new (Below (columns (card_of self.old)) (Lowered self.old s)) result }
    {
        self.each(0..width(self.network), |search, x| search.lower(s, x))
    }

    /// R of span s.
    fn release_all(&mut self, s: usize) -> Result<bool, Stop>
        requires ready { Ready self.old }
        requires place { s < span_count (card_of self.old) }
        ensures { Told self.old self.new (Below (card_of self.old).points (Released self.old s)) result }
    {
        self.each(0..self.network.points(), |search, p| search.release(s, p))
    }

    /// The rules of span s.
    fn span_rules(&mut self, s: usize) -> Result<bool, Stop>
        requires ready { Ready self.old }
        requires place { s < span_count (card_of self.old) }
        ensures { Told self.old self.new (Below (columns (card_of self.old)) (Lowered self.old s) × Below (card_of self.old).points (Released self.old s)) result }
    {
        let lowered = self.lower_all(s)?;
        let released = self.release_all(s)?;
        Ok(lowered | released)
    }

    /// The rules of all spans.
    fn span_all(&mut self) -> Result<bool, Stop>
        requires ready { Ready self.old }
        ensures { Told self.old self.new (Below (span_count (card_of self.old)) (λ s. Below (columns (card_of self.old)) (Lowered self.old s) × Below (card_of self.old).points (Released self.old s))) result }
    {
        self.each(
            0..self.network.span_count(),
            |search, s| search.span_rules(s),
        )
    }

    /// One round of all rules, but for what goes by way of point 0.
    fn round(&mut self) -> Result<bool, Stop>
        requires ready { Ready self.old }
        ensures { Told self.old self.new (Rounded (card_of self.old) self.old.work.best) result }
    {
        let spans = self.span_all()?;
        let chains = self.chain_all()?;
        Ok(spans | chains)
    }

    /// Goes on until a negative loop is found, the list is full, or no rule lowers an entry.
    pub(crate) fn saturate(&mut self) -> Result<(), Stop>
        requires ready { Ready self.old }
        ensures { Saturated self.old self.new result }
    {
        while self.round()? || self.chain_by(0)? {}
        Ok(())
    }
}
