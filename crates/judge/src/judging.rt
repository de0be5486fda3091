//! The judge: it lowers the tables of a card until they are closed, or finds a negative loop.
ghost use Rattle.std.specs.Prelude.{MatchResult};
ghost use Rattle.network.specs.Model.{model};
ghost use Rattle.judge.specs.Closures.{Winning};
ghost use Rattle.judge.specs.Closing.{Doomed, AllRules, Judged};
ghost use Rattle.judge.specs.Falling.{card_of, Sound, Told};

use crate::begins::in_time;
use crate::closure::Closure;
use crate::relaxation::Relaxation;
use crate::target::NegativeLoop;
use network::network::Network;

impl Relaxation<'_> {
    /// One pass over all rules.
    fn pass(&mut self) -> Result<bool, NegativeLoop>
        requires sound { Sound self.old }
        ensures { Told self.old self.new (AllRules (card_of self.old) self.old.closure) result }
    {
        let tie_count = self.network.tie_count();
        let span_count = self.network.span_count();
        let ties = self.each(tie_count, |tables, i| tables.hold_tie(i))?;
        let spans = self.each(span_count, |tables, s| tables.span_rules(s))?;
        let chains = self.chain_points()?;
        let waits = self.each(span_count, |tables, s| tables.chain_start(s))?;
        Ok(ties | spans | chains | waits)
    }

    /// Makes passes until nothing falls.
    fn close(mut self) -> Result<Closure, NegativeLoop>
        requires { Sound self }
        ensures { MatchResult result (Winning (card_of self.entry)) (λ e. Doomed (card_of self.entry)) }
    {
        while self.pass()? {}
        Ok(self.closure)
    }
}

/// The tables by which the controller wins; or none, where nobody can.
pub fn judge(network: &Network) -> Option<Closure>
    ensures { Judged (model network.now.content) result }
{
    if !in_time(network) {
        return None;
    }
    Relaxation::begin(network).close().ok()
}
