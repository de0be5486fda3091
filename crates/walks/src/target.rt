//! Best weights over walks to one target, edge by edge.
ghost use Rattle.std.specs.Prelude.{◌≡◌, ℕ, ◌+◌, ◌*◌, ◌/◌, ◌<◌, ◌≤◌, length};
ghost use Rattle.walks.specs.Tables.{at, cell, Small, SmallRow, BeyondRow};
ghost use Rattle.walks.specs.Walks.{Best, toward, through};

use crate::weight::Weight;

/// Chooses each weight of `into` with the way by an edge to r and then by `last`.
fn prepend<W: Weight, const N: usize>(edges: &[[W; N]; N], r: usize, last: W, into: &mut [W])
    requires fits { (length into.old ≤ N) × (r < N) }
    requires small { (p : ℕ) → p < length into.old → W.size (cell W.meaning W.absent edges.now p r) + W.size (W.meaning last) ≤ W.limit }
    ensures { (p : ℕ) → p < length into.old → at W.meaning W.absent into.new p ≡ W.chosen (at W.meaning W.absent into.old p) (W.joined (cell W.meaning W.absent edges.now p r) (W.meaning last)) }
{
    // An index: a column of `edges` is read.
    for (p, weight) in into.iter_mut().enumerate() {
        *weight = weight.choose(edges[p][r].join(last));
    }
}

/// From the best weights over walks of some length to those over walks of one edge more.
fn lengthen<W: Weight, const N: usize>(edges: &[[W; N]; N], best: &mut [W; N], n: usize)
    requires fits { n ≤ N }
    requires small { (p r : ℕ) → p < n → r < n → W.size (cell W.meaning W.absent edges.now p r) + W.size (at W.meaning W.absent best.old r) ≤ W.limit }
    ensures here { (p : ℕ) → p < n → at W.meaning W.absent best.new p ≡ through W.joined W.chosen (at W.meaning W.absent best.old p) (cell W.meaning W.absent edges.now p) (at W.meaning W.absent best.old) n }
    ensures beyond { BeyondRow W.absent n best.old best.new }
{
    let shorter = *best;
    let best = &mut best[..n];
    for (r, last) in shorter[..n].iter().enumerate() {
        if !last.is_absent() {
            prepend(edges, r, *last, best);
        }
    }
}

// Rows and tables here are arrays that the caller lends: the search asks for no memory.

/// The best weight over all walks of 1 to k edges, from each of the first n points to one target: `last` has the
/// weights of the edges to the target, and `edges` those of the other edges. The other entries of `out` stay.
pub fn best_walks_to<W: Weight, const N: usize>(
    edges: &[[W; N]; N],
    last: &[W; N],
    out: &mut [W; N],
    n: usize,
    k: usize,
)
    requires fits { (n ≤ N) × (0 < k) }
    requires small { (Small W.size (cell W.meaning W.absent edges.now) n (W.limit / k)) × (SmallRow W.size (at W.meaning W.absent last.now) n (W.limit / k)) }
    ensures best { (p : ℕ) → p < n → Best W.joined W.chosen (toward n (cell W.meaning W.absent edges.now) (at W.meaning W.absent last.now)) n k p n (at W.meaning W.absent out.new p) }
    ensures sized { (m : ℕ) → Small W.size (cell W.meaning W.absent edges.now) n m → SmallRow W.size (at W.meaning W.absent last.now) n m → SmallRow W.size (at W.meaning W.absent out.new) n (k * m) }
    ensures beyond { BeyondRow W.absent n out.old out.new }
{
    out[..n].copy_from_slice(&last[..n]);
    // Named for the invariant, which names the count.
    for _j in 1..k {
        lengthen(edges, out, n);
    }
}
