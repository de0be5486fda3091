//! The tables of a card while its rules make their entries fall.
ghost use Rattle.std.specs.Prelude.{◌≡◌, ◌<◌, ◌≤ℤ◌, false};
ghost use Rattle.judge.specs.Closures.{entry};
ghost use Rattle.judge.specs.Closing.{In, head, Proposed, Below};
ghost use Rattle.judge.specs.Falling.{card_of, Sound, Onward, Told, Idle};

use crate::closure::Closure;
use crate::parts::span_of;
use crate::target::{NegativeLoop, Target};
use network::network::Network;

/// A card and its tables.
// That the tables are sound is a clause of each method and no ghost field: it has derivations, data that `judge` answers, and a ghost field holds only propositions.
#[derive(Drop)]
pub(crate) struct Relaxation<'a> {
    pub(crate) network: &'a Network,
    pub(crate) closure: Closure,
}

impl<'a> Relaxation<'a> {
    /// The point at which a target stands.
    fn head(&self, x: Target) -> usize
        requires { In (card_of self.now) x }
        ensures { result ≡ head (card_of self.now) x }
    {
        match x {
            Target::Point(q) => q,
            Target::Start(s) => usize::from(span_of(self.network, s).start),
        }
    }

    /// Lowers the entry from p to x to this weight, if that is lower. With the entry that leads back it must not make a negative loop.
    pub(crate) fn relax(&mut self, p: usize, x: Target, weight: i32) -> Result<bool, NegativeLoop>
        requires sound { Sound self.old }
        requires point { p < (card_of self.old).points }
        requires target { In (card_of self.old) x }
        requires proposed { Proposed (card_of self.old) self.old.closure p x weight }
        ensures { Told self.old self.new (entry self.old.closure p x ≤ℤ weight) result }
    {
        if weight >= self.closure.at(p, x) {
            return Ok(false);
        }
        let back = self.closure.at(self.head(x), Target::Point(p));
        if weight + back < 0 {
            return Err(NegativeLoop);
        }
        self.closure.put(p, x, weight);
        Ok(true)
    }

    /// Applies a rule at each number below n, and tells whether something fell.
    // Explain has its own, over what it searches: what a rule may leave differs, and so does what it brings about.
    // A number and no element: it says which point, span or tie, and rules read the tables at it.
    pub(crate) fn each<F: Fn(&mut Relaxation<'a>, usize) -> Result<bool, NegativeLoop>>(
        &mut self,
        n: usize,
        rule: F,
    ) -> Result<bool, NegativeLoop>
        requires sound { Sound self.old }
        requires callable { (r : _) → Onward self.old r.now → Below n (λ k. F.pre rule r k) }
        requires tells { (r : _) → Onward self.old r.now → Below n (λ k. (a : _) (r' : _) → F.post rule r k a r' → Told r.now r'.now (Unit {0}) a) }
        ensures { Told self.old self.new (Below n (Idle (F.post rule) self.old)) result }
    {
        let mut fell = false;
        for k in 0..n {
            fell |= rule(self, k)?;
        }
        Ok(fell)
    }
}
