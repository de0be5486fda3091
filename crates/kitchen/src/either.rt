//! One of two kinds of kitchen, chosen when the program runs.
ghost use Rattle.kitchen.specs.declared.either.Either.TheVariants.{First, Second};
ghost use Rattle.kitchen.specs.Eithers.{of_either, by_either};

use crate::interface::Kitchen;
use crate::track::Status;
use rules::refusal::Refusal;

/// A kitchen of the first or of the second kind; it is all that this one is.
// The kit's `Either` would need the same impl, and the module another name: no module is called as a library below it.
#[derive(Drop)]
pub enum Either<A: Kitchen, B: Kitchen> {
    First(A),
    Second(B),
}

/// The same expression of whichever kitchen it is.
macro_rules! of_one {
    ($either:expr, $kitchen:ident => $result:expr) => {
        match $either {
            Either::First($kitchen) => $result,
            Either::Second($kitchen) => $result,
        }
    };
}

impl<A: Kitchen, B: Kitchen> Kitchen for Either<A, B> {
    ghost spans = { λ k. of_either A.Kitchen.spans B.Kitchen.spans k };

    ghost starts = { λ k i r m. by_either (λ a b. A.Kitchen.starts a i r b) (λ a b. B.Kitchen.starts a i r b) k m };

    ghost advances = { λ k m. by_either A.Kitchen.advances B.Kitchen.advances k m };

    ghost keeps = { elim [ First a ↦ A.Kitchen.keeps a | Second b ↦ B.Kitchen.keeps b ] };

    fn count(&self) -> usize {
        of_one!(self, kitchen => kitchen.count())
    }

    fn bounds(&self, span: usize) -> Result<(u16, u16), Refusal> {
        of_one!(self, kitchen => kitchen.bounds(span))
    }

    fn status(&self, span: usize) -> Result<Status, Refusal> {
        of_one!(self, kitchen => kitchen.status(span))
    }

    fn start(&mut self, span: usize) -> Result<(), Refusal> {
        of_one!(self, kitchen => kitchen.start(span))
    }

    fn advance(&mut self) {
        of_one!(self, kitchen => kitchen.advance())
    }
}
