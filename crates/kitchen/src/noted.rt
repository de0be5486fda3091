//! A kitchen of noted durations: each span takes just as long as it says.
ghost use Rattle.std.specs.Prelude.{◌≡◌, false, map};
ghost use Rattle.kitchen.specs.Tracks.{cold};
ghost use Rattle.kitchen.specs.Kitchens.{Lawful};
ghost use Rattle.kitchen.specs.Endings.{next_track};
ghost use Rattle.kitchen.specs.Makes.{Made, exactly};

use crate::interface::Kitchen;
use crate::row::Row;
use crate::track::Status;
use rules::refusal::Refusal;

/// Spans whose least and most are a noted duration.
#[derive(Clone, Copy)]
pub struct Noted {
    row: Row,
    ghost lawful: { Lawful row },
}

impl Noted {
    /// A kitchen with a cold span for each of up to eight durations.
    #[tactic(auto, using(crate::proofs::Made::lawful_made))]
    pub fn new(durations: &[u16]) -> Result<Noted, Refusal>
        ensures { Made (map exactly durations.now) (λ k. k.row ≡ map cold (map exactly durations.now)) result }
    {
        let row = Row::try_from(durations)?;
        Ok(Noted { row })
    }
}

impl Kitchen for Noted {
    ghost spans = { λ k. k.row };

    // The spans are all that there is.
    ghost starts = { λ _ _ _ _. Unit {0} };

    // A span ends at its duration.
    ghost advances = { λ k m. m.row ≡ map (next_track false) k.row };

    ghost keeps = { λ k. k.lawful };

    fn count(&self) -> usize {
        self.row.len()
    }

    fn bounds(&self, span: usize) -> Result<(u16, u16), Refusal> {
        self.row.bounds(span)
    }

    fn status(&self, span: usize) -> Result<Status, Refusal> {
        self.row.status(span)
    }

    fn start(&mut self, span: usize) -> Result<(), Refusal> {
        self.row.start(span)
    }

    #[tactic(auto, using(crate::proofs::Endings::lawful_next))]
    fn advance(&mut self) {
        self.row.advance(false);
    }
}
