//! The given edges tested: whether two of them, or one and the way by point 0, make a negative loop.
ghost use Rattle.std.specs.Prelude.{ℕ, ◌<◌, ◌≢◌, length, pos, ◌<ℤ◌, slice_index_or};
ghost use Rattle.rules.specs.Steps.{given, no_edge};
ghost use Rattle.explain.specs.Columns.{at};
ghost use Rattle.explain.specs.Working.{card_of, Fresh, Tested, Detoured, Tried};

use crate::given::given_entry;
use crate::search::Search;
use crate::tables::head;
use crate::work::{Best, Stop};
use steps::given::given_count;

impl Search<'_> {
    /// Writes the edge from h to p by way of point 0, of weight H.
    fn detour(&mut self, h: usize, p: usize) -> Result<Best, Stop>
        requires fresh { Fresh self.old }
        requires place { (h < (card_of self.old).points) × (p < (card_of self.old).points) × (h ≢ p) }
        requires none { pos (card_of self.old).horizon <ℤ at self.old.work.best h p }
        ensures { Detoured self.old self.new h p result }
    {
        let limit = i32::from(self.network.horizon());
        let home = Best {
            weight: 0,
            number: (2 * (h - 1) + 1) as u32,
        };
        let away = Best {
            weight: limit,
            number: (2 * (p - 1)) as u32,
        };
        let step = self.joined(b'N', home, away, h, p);
        self.write(step)?;
        Ok(Best {
            weight: limit,
            number: given_count(self.network) as u32,
        })
    }

    /// Tests the given edge of this number.
    fn test_edge(&mut self, number: usize) -> Result<(), Stop>
        requires fresh { Fresh self.old }
        requires place { number < length (given (card_of self.old)) }
        ensures { Tried self.old self.new (Tested (card_of self.old) self.old.work.best (slice_index_or (given (card_of self.old)) number no_edge)) result }
    {
        let Some((p, x, this)) = given_entry(self.network, number) else {
            return Ok(());
        };
        let limit = i32::from(self.network.horizon());
        let head = head(self.network, x);
        let back = self.work.at(head, p);
        if back.weight <= limit {
            if back.weight + this.weight < 0 {
                return Err(self.close(p, x, back, this));
            }
            return Ok(());
        }
        if this.weight >= -limit {
            return Ok(());
        }
        let detour = self.detour(head, p)?;
        Err(self.close(p, x, detour, this))
    }

    /// Tests all given edges.
    pub(crate) fn test(&mut self) -> Result<(), Stop>
        requires { Fresh self.old }
        ensures { Tried self.old self.new ((i : ℕ) → i < length (given (card_of self.old)) → Tested (card_of self.old) self.old.work.best (slice_index_or (given (card_of self.old)) i no_edge)) result }
    {
        // By number: the given edges stand in no list, and a step names an edge by its number.
        for number in 0..given_count(self.network) {
            self.test_edge(number)?;
        }
        Ok(())
    }
}
