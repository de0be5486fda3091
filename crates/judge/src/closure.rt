//! What the judge works out of a good card, and a run keeps.
ghost use Rattle.std.specs.Prelude.{◌≡◌, ◌<◌};
ghost use Rattle.judge.specs.Closures.{entry, Placed, PutRow, Put};

use crate::target::Target;

/// For each point a distance to each point, and for each span a wait from each point to its start.
/// (In the field: the dispatchable form of the network.)
#[derive(Clone, Copy, PartialEq, Eq, Debug)]
pub struct Closure {
    pub distances: [[i32; 32]; 32],
    pub waits: [[i32; 32]; 8],
}

/// Writes a weight into row i at place k.
// A function of its own: of an array in a struct no fact tells how long its rows are.
fn set_weight<W: Copy, const R: usize>(rows: &mut [[W; 32]; R], i: usize, k: usize, weight: W)
    requires { (i < R) × (k < 32) }
    ensures { PutRow rows.old i k weight rows.new }
{
    rows[i][k] = weight;
}

impl Closure {
    /// The weight from a point to a target.
    pub fn at(&self, p: usize, x: Target) -> i32
        requires { (p < 32) × (Placed 32 8 x) }
        ensures { result ≡ entry self.now p x }
    {
        match x {
            Target::Point(q) => self.distances[p][q],
            Target::Start(s) => self.waits[s][p],
        }
    }

    /// Writes the weight from a point to a target.
    pub(crate) fn put(&mut self, p: usize, x: Target, weight: i32)
        requires { (p < 32) × (Placed 32 8 x) }
        ensures { Put self.old p x weight self.new }
    {
        match x {
            Target::Point(q) => set_weight(&mut self.distances, p, q, weight),
            Target::Start(s) => set_weight(&mut self.waits, s, p, weight),
        }
    }
}
