//! Best weights over walks between every two points, by doubling the walks' length.
ghost use Rattle.std.specs.Prelude.{◌≡◌, ℕ, ◌+◌, ◌*◌, ◌/◌, ◌^◌, ◌<◌, ◌≤◌, length};
ghost use Rattle.walks.specs.Tables.{at, cell, Small, Beyond};
ghost use Rattle.walks.specs.Walks.{Best, through, twice};

use crate::table::copy;
use crate::weight::Weight;

/// Chooses each weight of `into` with the way by `first` and then by `row`.
fn extend<W: Weight>(into: &mut [W], first: W, row: &[W])
    requires fits { length into.old ≤ length row.now }
    requires small { (q : ℕ) → q < length into.old → W.size (W.meaning first) + W.size (at W.meaning W.absent row.now q) ≤ W.limit }
    ensures { (q : ℕ) → q < length into.old → at W.meaning W.absent into.new q ≡ W.chosen (at W.meaning W.absent into.old q) (W.joined (W.meaning first) (at W.meaning W.absent row.now q)) }
{
    // An index: after a loop over a zip with `iter_mut` no fact about what was written is to be had.
    for (q, weight) in into.iter_mut().enumerate() {
        *weight = weight.choose(first.join(row[q]));
    }
}

/// Chooses each weight of `row` with every way through one point, by `firsts` to that point and by `best` from there.
fn double_row<W: Weight, const N: usize>(row: &mut [W], firsts: &[W; N], best: &[[W; N]])
    requires fits { (length row.old ≤ N) × (length best.now ≤ N) }
    requires small { (r q : ℕ) → r < length best.now → q < length row.old → W.size (at W.meaning W.absent firsts.now r) + W.size (cell W.meaning W.absent best.now r q) ≤ W.limit }
    ensures { (q : ℕ) → q < length row.old → at W.meaning W.absent row.new q ≡ through W.joined W.chosen (at W.meaning W.absent row.old q) (at W.meaning W.absent firsts.now) (λ r. cell W.meaning W.absent best.now r q) (length best.now) }
{
    for (first, onward) in firsts.iter().zip(best) {
        if !first.is_absent() {
            extend(row, *first, onward);
        }
    }
}

/// From the best weights over walks of some length to those over walks of up to twice as many edges.
fn double<W: Weight, const N: usize>(best: &[[W; N]], into: &mut [[W; N]])
    requires fits { (length into.old ≡ length best.now) × (length best.now ≤ N) }
    requires small { (p r q : ℕ) → p < length best.now → r < length best.now → q < length best.now → W.size (cell W.meaning W.absent best.now p r) + W.size (cell W.meaning W.absent best.now r q) ≤ W.limit }
    ensures here { (p q : ℕ) → p < length best.now → q < length best.now → cell W.meaning W.absent into.new p q ≡ twice W.joined W.chosen (cell W.meaning W.absent best.now) (length best.now) p q }
    ensures beyond { Beyond W.absent (length best.now) into.old into.new }
{
    let n = best.len();
    // An index: after a loop over a zip with `iter_mut` no fact about what was written is to be had.
    for (p, row) in into.iter_mut().enumerate() {
        let firsts = &best[p];
        // Not in `into` itself, which the loops would test for an overlap with `best`: 43 ms in place of 47 for minutes.
        let mut longer = *firsts;
        double_row(&mut longer[..n], firsts, best);
        row[..n].copy_from_slice(&longer[..n]);
    }
}

/// The best weight over all walks of 1 to 2 ^ doublings edges, from each of the first n points to each.
/// The other entries of `out` and `scratch` stay.
// Rows and tables, here and above, are arrays that the caller lends: the search asks for no memory.
pub fn best_walks<W: Weight, const N: usize>(
    edges: &[[W; N]; N],
    out: &mut [[W; N]; N],
    scratch: &mut [[W; N]; N],
    n: usize,
    doublings: usize,
)
    requires fits { n ≤ N }
    requires small { Small W.size (cell W.meaning W.absent edges.now) n (W.limit / 2 ^ doublings) }
    ensures best { (p q : ℕ) → p < n → q < n → Best W.joined W.chosen (cell W.meaning W.absent edges.now) n (2 ^ doublings) p q (cell W.meaning W.absent out.new p q) }
    ensures sized { (m : ℕ) → Small W.size (cell W.meaning W.absent edges.now) n m → Small W.size (cell W.meaning W.absent out.new) n (2 ^ doublings * m) }
    ensures beyond { (Beyond W.absent n out.old out.new) × (Beyond W.absent n scratch.old scratch.new) }
{
    let out = &mut out[..n];
    let scratch = &mut scratch[..n];
    copy(&edges[..n], out);
    // Named for the invariant, which names the count.
    for _d in 0..doublings {
        double(out, scratch);
        copy(scratch, out);
    }
}
