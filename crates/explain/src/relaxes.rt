//! Better edges: each is written as a step and takes its place in the table, unless it closes a negative loop.
ghost use Rattle.std.specs.Prelude.{◌≡◌, ◌≢◌, pos, ◌+ℤ◌, neg_ℤ, ◌≤ℤ◌, ◌<ℤ◌};
ghost use Rattle.rules.specs.Steps.{LawfulStep};
ghost use Rattle.explain.specs.Columns.{at, head_of, way};
ghost use Rattle.explain.specs.Working.{card_of, known_to, Placed, PlacedBy, Ready, Told, Taken, Found, Present, Chained};

use crate::search::Search;
use crate::tables::{head, letter};
use crate::work::{Best, Stop};
use rules::edges::Step;
use steps::given::given_count;

// Places by numbers and no struct: each rule takes its own of p, q, x and s, and the loops run over one of them.
impl Search<'_> {
    /// Takes the step if it makes a better edge from p to column x than is known, and closes the loop if the edge back makes it negative.
    pub(crate) fn relax(&mut self, p: usize, x: usize, step: Step) -> Result<bool, Stop>
        requires ready { Ready self.old }
        requires place { Placed self.old p x }
        requires way { step.makes ≡ way (card_of self.old) p x step.makes.weight }
        requires lawful { LawfulStep (card_of self.old) (known_to self.old) step }
        requires low { p ≢ head_of (card_of self.old) x → neg_ℤ (pos (card_of self.old).horizon) ≤ℤ step.makes.weight }
        ensures told { Told self.old self.new (at self.old.work.best p x ≤ℤ step.makes.weight) result }
        ensures taken { Taken self.new.work.best p x step.makes.weight result }
    {
        let weight = step.makes.weight;
        if weight >= self.work.at(p, x).weight {
            return Ok(false);
        }
        let head = head(self.network, x);
        let number = (given_count(self.network) + self.work.count) as u32;
        self.write(step)?;
        if head == p {
            return Err(Stop::Loop);
        }
        let edge = Best { weight, number };
        self.work.put(p, x, edge);
        let back = self.work.at(head, p);
        if back.weight + weight < 0 {
            return Err(self.close(p, x, back, edge));
        }
        Ok(true)
    }

    /// The edge from p to column x that the table holds, if it holds one.
    pub(crate) fn edge(&self, p: usize, x: usize) -> Option<Best>
        requires { Placed self.now p x }
        ensures { Found (card_of self.now) self.now.work.best p x result }
    {
        if head(self.network, x) == p {
            return None;
        }
        let best = self.work.at(p, x);
        if best.weight > i32::from(self.network.horizon()) {
            return None;
        }
        Some(best)
    }

    /// N and U at one place: from p by way of q to column x.
    fn join(&mut self, p: usize, q: usize, x: usize) -> Result<bool, Stop>
        requires ready { Ready self.old }
        requires place { PlacedBy self.old p q x }
        requires present { Present (card_of self.old) self.old.work.best p q × Present (card_of self.old) self.old.work.best q x }
        requires low { p ≢ head_of (card_of self.old) x → neg_ℤ (pos (card_of self.old).horizon) ≤ℤ (at self.old.work.best p q +ℤ at self.old.work.best q x) }
        ensures told { Told self.old self.new (at self.old.work.best p x ≤ℤ (at self.old.work.best p q +ℤ at self.old.work.best q x)) result }
        ensures taken { Taken self.new.work.best p x (at self.old.work.best p q +ℤ at self.old.work.best q x) result }
    {
        let left = self.work.at(p, q);
        let right = self.work.at(q, x);
        let step = self.joined(letter(self.network, x), left, right, p, x);
        self.relax(p, x, step)
    }

    /// Where the edge by way of q would weigh less than -H: from 0 by way of p to q, and on to x, is a negative loop, whose edges stay in range.
    fn around(&mut self, p: usize, q: usize, x: usize) -> Result<bool, Stop>
        requires ready { Ready self.old }
        requires place { PlacedBy self.old p q x }
        requires present { Present (card_of self.old) self.old.work.best p q × Present (card_of self.old) self.old.work.best q x }
        requires below { (at self.old.work.best p q +ℤ at self.old.work.best q x) <ℤ neg_ℤ (pos (card_of self.old).horizon) }
        ensures { Told self.old self.new (Chained self.old p q x) result }
    {
        self.join(0, p, q)?;
        self.join(0, q, x)
    }

    /// N and U at one place, if the edges by way of q are known.
    pub(crate) fn chain(&mut self, p: usize, q: usize, x: usize) -> Result<bool, Stop>
        requires ready { Ready self.old }
        requires place { PlacedBy self.old p q x }
        ensures { Told self.old self.new (Chained self.old p q x) result }
    {
        let Some(left) = self.edge(p, q) else {
            return Ok(false);
        };
        let Some(right) = self.edge(q, x) else {
            return Ok(false);
        };
        if left.weight + right.weight < -i32::from(self.network.horizon()) {
            return self.around(p, q, x);
        }
        self.join(p, q, x)
    }
}
