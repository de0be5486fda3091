//! What N and U make fall: the best walks of up to two edges over the distances, and over distances and then a wait.
ghost use Rattle.std.specs.Prelude.{◌≡◌, ℕ, ◌<◌, Some};
ghost use Rattle.rules.specs.Card.{span_count};
ghost use Rattle.walks.specs.Minutes.{of_minutes, absent_minutes};
ghost use Rattle.walks.specs.Tables.{at};
ghost use Rattle.judge.specs.declared.target.Target.TheVariants.{Point, Start};
ghost use Rattle.judge.specs.Closures.{entry};
ghost use Rattle.judge.specs.Closing.{In, Below, Chained, Offered, Within};
ghost use Rattle.judge.specs.Falling.{card_of, Sound, Told};

use crate::relaxation::Relaxation;
use crate::tables::{fill_row, fill_table};
use crate::target::{NegativeLoop, Target};
use walks::closure::best_walks;
use walks::minutes::Minutes;
use walks::plain_wait::PlainWait;
use walks::table::weight_at;
use walks::target::best_walks_to;
use walks::weight::Weight;

impl Relaxation<'_> {
    /// An entry as a weight.
    fn weight(&self, p: usize, x: Target) -> Minutes
        requires sound { Sound self.now }
        requires place { (p < (card_of self.now).points) × (In (card_of self.now) x) }
        ensures { of_minutes result ≡ Some (entry self.now.closure p x) }
    {
        Minutes::of(self.closure.at(p, x) as i16)
    }

    /// Lowers the entry from p to x to the best weight of a walk.
    fn relax_best(&mut self, p: usize, x: Target, best: Minutes) -> Result<bool, NegativeLoop>
        requires sound { Sound self.old }
        requires point { p < (card_of self.old).points }
        requires target { In (card_of self.old) x }
        requires offered { Offered (card_of self.old) self.old.closure p x (of_minutes best) }
        ensures { Told self.old self.new (Within self.old.closure p x (of_minutes best)) result }
    {
        match best.get() {
            Some(weight) => self.relax(p, x, weight),
            None => Ok(false),
        }
    }

    /// Lowers the distances from p to the best weights.
    // An array, as the walks lend it.
    fn relax_row(&mut self, p: usize, best: &[Minutes; 32]) -> Result<bool, NegativeLoop>
        requires sound { Sound self.old }
        requires point { p < (card_of self.old).points }
        requires offered { (q : ℕ) → q < (card_of self.old).points → Offered (card_of self.old) self.old.closure p (Point q) (at of_minutes absent_minutes best.now q) }
        ensures { Told self.old self.new (Below (card_of self.old).points (λ q. Within self.old.closure p (Point q) (at of_minutes absent_minutes best.now q))) result }
    {
        let points = self.network.points();
        self.each(
            points,
            |tables, q| tables.relax_best(p, Target::Point(q), weight_at(best, q)),
        )
    }

    /// N.
    pub(crate) fn chain_points(&mut self) -> Result<bool, NegativeLoop>
        requires sound { Sound self.old }
        ensures { Told self.old self.new (Below (card_of self.old).points (λ q. Chained (card_of self.old) self.old.closure (Point q))) result }
    {
        let points = self.network.points();
        let mut edges = [[Minutes::absent(); 32]; 32];
        fill_table(&mut edges, points, points, |p, q| {
            self.weight(p, Target::Point(q))
        });
        let mut best = edges;
        let mut scratch = edges;
        best_walks(&edges, &mut best, &mut scratch, points, 1);
        self.each(points, |tables, p| tables.relax_row(p, &best[p]))
    }

    /// U of span s.
    pub(crate) fn chain_start(&mut self, s: usize) -> Result<bool, NegativeLoop>
        requires sound { Sound self.old }
        requires span { s < span_count (card_of self.old) }
        ensures { Told self.old self.new (Chained (card_of self.old) self.old.closure (Start s)) result }
    {
        let points = self.network.points();
        let mut edges = [[PlainWait::absent(); 32]; 32];
        fill_table(
            &mut edges,
            points,
            points,
            |p, q| PlainWait {
                plain: self.weight(p, Target::Point(q)),
                wait: Minutes::absent(),
            },
        );
        let mut last = [PlainWait::absent(); 32];
        fill_row(
            &mut last,
            points,
            |p| PlainWait {
                plain: Minutes::absent(),
                wait: self.weight(p, Target::Start(s)),
            },
        );
        let mut best = last;
        best_walks_to(&edges, &last, &mut best, points, 2);
        self.each(points, |tables, p| {
            tables.relax_best(p, Target::Start(s), weight_at(&best, p).wait)
        })
    }
}
