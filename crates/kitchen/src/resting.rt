//! A layer over any kitchen: each span that is done rests for a while before it is told as done.
ghost use Rattle.std.specs.Prelude.{◌≡◌, map, length};
ghost use Rattle.kitchen.specs.Kitchens.{Started, Advanced};
ghost use Rattle.kitchen.specs.Rests.{first_eight, fresh, rested, Counted, RestExample};
ghost use Rattle.kitchen.specs.Rested.{rested_lawful};

use crate::interface::Kitchen;
use crate::rest::{Rest, count_advance, eight};
use crate::row::MAX_SPANS;
use crate::track::Status;
use rules::refusal::Refusal;

/// A kitchen whose spans take a rest longer than those of the kitchen under it.
#[derive(Drop)]
pub struct Resting<K: Kitchen> {
    under: K,
    // an array: a rest for each span that may stand, without memory
    rests: [Rest; MAX_SPANS],
    ghost long: { length rests ≡ 8 },
}

impl<K: Kitchen> Resting<K> {
    /// Lays a rest over each span. A span that is done already is first seen done now.
    #[tactic(auto, using(crate::proofs::Rested::rested_first))]
    pub fn over(under: K, rests: &[u16]) -> Resting<K>
        ensures under { result.under ≡ under }
        ensures rests { result.rests ≡ map fresh (first_eight rests.now) }
        ensures tells { rested (K.Kitchen.spans result.under) result.rests ≡ rested (K.Kitchen.spans under) (map fresh rests.now) }
    {
        Resting {
            under,
            rests: eight(rests),
        }
    }
}

/// The worked example of bounds under a rest.
pub fn rest_example()
    ensures { RestExample }
{}

#[tactic(auto, using(crate::specs::Rested::rested_long, crate::specs::Rested::rested_at))]
impl<K: Kitchen> Kitchen for Resting<K> {
    ghost spans = { λ k. rested (K.Kitchen.spans k.under) k.rests };

    // The kitchen below is started as it is, and nothing else changes.
    ghost starts = { λ k i r m. Started (K.Kitchen.spans k.under) i r (K.Kitchen.spans m.under) × K.Kitchen.starts k.under i r m.under × (m.rests ≡ k.rests) };

    // The kitchen below is advanced as it is, and spans that were done count one more.
    ghost advances = { λ k m. Advanced (K.Kitchen.spans k.under) (K.Kitchen.spans m.under) × K.Kitchen.advances k.under m.under × Counted (K.Kitchen.spans k.under) k.rests m.rests };

    ghost keeps = { λ k. rested_lawful (K.Kitchen.spans k.under) k.rests (K.Kitchen.keeps k.under) };

    fn count(&self) -> usize {
        self.under.count()
    }

    fn bounds(&self, span: usize) -> Result<(u16, u16), Refusal> {
        let (least, most) = self.under.bounds(span)?;
        let rest = self.rests[span].within(most);
        Ok((least + rest, most + rest))
    }

    fn status(&self, span: usize) -> Result<Status, Refusal> {
        let (_, most) = self.under.bounds(span)?;
        let status = self.under.status(span)?;
        Ok(self.rests[span].tell(most, status))
    }

    #[tactic(auto, using(crate::proofs::Rested::started_rested))]
    fn start(&mut self, span: usize) -> Result<(), Refusal> {
        self.under.start(span)
    }

    fn advance(&mut self) {
        count_advance(&self.under, &mut self.rests);
        self.under.advance();
    }
}
