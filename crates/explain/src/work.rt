//! What the search for a negative loop keeps beside its list: the best edges known, and how many steps are written.
ghost use Rattle.std.specs.Prelude.{◌≡◌, ◌<◌};
ghost use Rattle.explain.specs.Columns.{best, with_entry};

/// The least weight known of a kind of edge between two points, and the number of an edge that has it.
#[derive(Clone, Copy)]
pub(crate) struct Best {
    pub(crate) weight: i32,
    pub(crate) number: u32,
}

/// A row of 40 columns for each of 32 points. The first columns are the points, for plain edges;
/// after them comes a column for each span, for waits that lead to its start.
/// From a point to itself stands weight 0; where no edge is known that weighs at most the horizon H, H + 1.
// No Option: H + 1 is more than any edge worth making weighs, so entries compare as weights alone.
#[derive(Clone, Copy)]
pub(crate) struct Work {
    pub(crate) best: [[Best; 40]; 32],
    // How many steps of the caller's list are written: the list is lent, so that no call depends on memory.
    pub(crate) count: usize,
}

impl Work {
    pub(crate) fn at(&self, p: usize, x: usize) -> Best
        requires { (p < 32) × (x < 40) }
        ensures { result ≡ best self.now.best p x }
    {
        self.best[p][x]
    }

    pub(crate) fn put(&mut self, p: usize, x: usize, entry: Best)
        requires { (p < 32) × (x < 40) }
        ensures table { self.new.best ≡ with_entry self.old.best p x entry }
        ensures steps { self.new.count ≡ self.old.count }
    {
        self.best[p][x] = entry;
    }
}

/// Why the search ends.
#[derive(Clone, Copy, PartialEq, Eq, Debug)]
pub(crate) enum Stop {
    /// The last step makes a negative loop.
    Loop,
    /// The list is full.
    Spent,
}
