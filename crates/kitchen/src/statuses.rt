//! What is read of a status, and what an advance makes of a span.
ghost use Rattle.std.specs.Prelude.{◌≡◌, true};
ghost use Rattle.kitchen.specs.Tracks.{is_done, fit};
ghost use Rattle.kitchen.specs.Endings.{next_track};

use crate::track::{Status, Track};

impl Status {
    /// Whether the span has ended.
    pub fn is_done(self) -> bool
        ensures { result ≡ is_done self }
    {
        matches!(self, Status::Done(_))
    }
}

impl Track {
    /// One minute more: a span that is on ends if it must and, where `early` is set, if it may.
    pub(crate) fn advance(&mut self, early: bool)
        requires { fit self.old ≡ true }
        ensures { self.new ≡ next_track early self.old }
    {
        match self.status {
            Status::On(e) if e + 1 >= self.most || (early && e + 1 >= self.least) => {
                self.status = Status::Done(e + 1);
            }
            Status::On(e) => {
                self.status = Status::On(e + 1);
            }
            Status::Cold | Status::Done(_) => {}
        }
    }
}
