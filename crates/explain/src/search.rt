//! A search for a negative loop: the network, the list that it writes, and what it knows.
ghost use Rattle.explain.specs.Working.{Ready, Follows, Told, Idle, Within};

use crate::work::{Stop, Work};
use network::network::Network;
use rules::edges::Step;
use std::ops::Range;

// No invariants, but facts of a stage: `Fresh` holds until a step is written, and `Ready` from the test of the given edges until a negative loop ends the list.
#[derive(Drop)]
pub(crate) struct Search<'a> {
    pub(crate) network: &'a Network,
    pub(crate) list: &'a mut [Step],
    pub(crate) work: Work,
}

impl<'a> Search<'a> {
    /// Applies a rule at each place in turn, and answers whether it lowered an entry at one of them.
    // The judge has its own: what a rule may leave there differs.
    pub(crate) fn each<F: Fn(&mut Search<'a>, usize) -> Result<bool, Stop>>(
        &mut self,
        places: Range<usize>,
        rule: F,
    ) -> Result<bool, Stop>
        requires ready { Ready self.old }
        requires callable { (s : _) → Ready s.now → Follows self.old s.now → Within places.start places.end (λ k. F.pre rule s k) }
        requires told { (s : _) → Ready s.now → Follows self.old s.now → Within places.start places.end (λ k. (r : _) (t : _) → F.post rule s k r t → Told s.now t.now (Unit {0}) r) }
        ensures { Told self.old self.new (Within places.start places.end (Idle (F.post rule) self.old)) result }
    {
        let mut lowered = false;
        // By its ends: in a loop over the range itself the precondition of the rule's call stays open.
        for k in places.start..places.end {
            lowered |= rule(self, k)?;
        }
        Ok(lowered)
    }
}
