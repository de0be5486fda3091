//! A contrary kitchen: just after a start it ends spans as early as it may, otherwise as late as it may.
ghost use Rattle.std.specs.Prelude.{◌≡◌, false, map};
ghost use Rattle.kitchen.specs.Tracks.{cold};
ghost use Rattle.kitchen.specs.Kitchens.{Lawful};
ghost use Rattle.kitchen.specs.Endings.{next_track, noticed};
ghost use Rattle.kitchen.specs.Makes.{Made};

use crate::interface::Kitchen;
use crate::row::Row;
use crate::track::Status;
use rules::refusal::Refusal;

/// Spans of given bounds. If some span was started since the last advance, every span that may end ends;
/// otherwise only those that must.
#[derive(Clone, Copy)]
pub struct Contrary {
    row: Row,
    // a span was started since the last advance; nothing else decides how spans end
    started: bool,
    ghost lawful: { Lawful row },
}

impl Contrary {
    /// A kitchen with a cold span for each of up to eight bounds, least and most.
    #[tactic(auto, using(crate::proofs::Made::lawful_made))]
    pub fn new(bounds: &[(u16, u16)]) -> Result<Contrary, Refusal>
        ensures { Made bounds.now (λ k. (k.row ≡ map cold bounds.now) × (k.started ≡ false)) result }
    {
        let row = Row::try_from(bounds)?;
        Ok(Contrary {
            row,
            started: false,
        })
    }
}

// As `Noted` passes calls on to its row: each is a line, and a trait between them would say its clauses again.
impl Kitchen for Contrary {
    ghost spans = { λ k. k.row };

    // An accepted start is noticed.
    ghost starts = { λ k _ r m. m.started ≡ noticed r k.started };

    // After a start all spans that may end do, otherwise those that must; the start is forgotten.
    ghost advances = { λ k m. (m.row ≡ map (next_track k.started) k.row) × (m.started ≡ false) };

    ghost keeps = { λ k. k.lawful };

    fn count(&self) -> usize {
        self.row.len()
    }

    fn bounds(&self, span: usize) -> Result<(u16, u16), Refusal> {
        self.row.bounds(span)
    }

    fn status(&self, span: usize) -> Result<Status, Refusal> {
        self.row.status(span)
    }

    fn start(&mut self, span: usize) -> Result<(), Refusal> {
        self.row.start(span)?;
        self.started = true;
        Ok(())
    }

    #[tactic(auto, using(crate::proofs::Endings::lawful_next))]
    fn advance(&mut self) {
        self.row.advance(self.started);
        self.started = false;
    }
}
