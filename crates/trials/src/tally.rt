//! How many of the expectations of a trial hold.
use std::fmt;

#[derive(Clone, Copy, Default)]
pub struct Tally {
    hold: u32,
    fail: u32,
}

impl Tally {
    pub fn note(&mut self, holds: bool) {
        if holds {
            self.hold = self.hold.saturating_add(1);
        } else {
            self.fail = self.fail.saturating_add(1);
        }
    }
}

impl fmt::Display for Tally {
    fn fmt<W: fmt::Write>(&self, f: &mut fmt::Formatter<W>) -> fmt::Result {
        let hold = self.hold;
        let fail = self.fail;
        write!(f, "{hold} hold, {fail} fail")
    }
}
