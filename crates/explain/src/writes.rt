//! The writing of steps: the only place where the list changes.
ghost use Rattle.std.specs.Prelude.{◌≡◌, ◌<◌, ◌≤◌, length, pos, negsuc, ◌+ℤ◌, ◌≤ℤ◌};
ghost use Rattle.explain.specs.Columns.{way};
ghost use Rattle.explain.specs.Working.{card_of, known_to, Placed, Written, Follows, Ended, Put, Back};

use crate::search::Search;
use crate::tables::{head, kind, letter};
use crate::work::{Best, Stop};
use rules::edges::{Edge, Step};

impl Search<'_> {
    /// The step that joins two edges into one from p to column x.
    // The letter is a number, as a step keeps it.
    pub(crate) fn joined(&self, letter: u8, left: Best, right: Best, p: usize, x: usize) -> Step
        requires place { Placed self.now p x }
        requires left { (negsuc 9999 ≤ℤ left.weight) × (left.weight ≤ℤ pos 9999) }
        requires right { (negsuc 9999 ≤ℤ right.weight) × (right.weight ≤ℤ pos 9999) }
        ensures { result ≡ record { letter = letter; left = left.number; right = right.number; makes = way (card_of self.now) p x (left.weight +ℤ right.weight) } }
    {
        Step {
            letter,
            left: left.number,
            right: right.number,
            makes: Edge {
                kind: kind(self.network, x),
                source: p as u8,
                target: head(self.network, x) as u8,
                weight: left.weight + right.weight,
            },
        }
    }

    /// Writes a step, if there is room.
    pub(crate) fn write(&mut self, step: Step) -> Result<(), Stop>
        requires { self.old.work.count ≤ length self.old.list.now }
        ensures put { Put self.old self.new step result }
        ensures follows { Follows self.old self.new }
    {
        if self.work.count >= self.list.len() {
            return Err(Stop::Spent);
        }
        self.list[self.work.count] = step;
        self.work.count += 1;
        Ok(())
    }

    /// Writes the last step: an edge from p to column x, with a plain edge back to p before it, is a negative loop.
    pub(crate) fn close(&mut self, p: usize, x: usize, back: Best, edge: Best) -> Stop
        requires written { Written (card_of self.old) self.old.list.now self.old.work.count }
        requires few { self.old.work.count < 6_637_824 }
        requires place { Placed self.old p x }
        requires back { Back (card_of self.old) (known_to self.old) p x back edge }
        ensures { Ended self.old self.new result }
    {
        let letter = letter(self.network, x);
        let head = head(self.network, x);
        let step = self.joined(letter, back, edge, head, x);
        match self.write(step) {
            Ok(()) => Stop::Loop,
            Err(stop) => stop,
        }
    }
}
