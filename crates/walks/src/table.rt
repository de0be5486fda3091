//! Tables of weights as arrays of rows: reads, writes and copies.
ghost use Rattle.std.specs.Prelude.{◌≡◌, ℕ, ◌<◌, ◌≤◌, ◌≢◌, length, slice_index_or};
ghost use Rattle.walks.specs.Tables.{entry, Beyond};

use crate::weight::Weight;

// Reads and writes as functions of their own: their contracts name the entry, which the proofs of other crates use. They are arrays that callers lend.

/// The weight at place q of a row.
pub fn weight_at<W: Weight, const N: usize>(row: &[W; N], q: usize) -> W
    requires { q < N }
    ensures { result ≡ slice_index_or row.now q W.absent }
{
    row[q]
}

/// Writes a weight into row p at place q.
pub fn put_weight<W: Weight, const N: usize>(table: &mut [[W; N]; N], p: usize, q: usize, weight: W)
    requires { (p < N) × (q < N) }
    ensures here { entry W.absent table.new p q ≡ weight }
    ensures others { (i j : ℕ) → (i ≡ p → j ≢ q) → entry W.absent table.new i j ≡ entry W.absent table.old i j }
{
    table[p][q] = weight;
}

/// Copies the weights between as many points as there are rows.
pub(crate) fn copy<W: Weight, const N: usize>(from: &[[W; N]], into: &mut [[W; N]])
    requires { (length into.old ≡ length from.now) × (length from.now ≤ N) }
    ensures here { (p q : ℕ) → p < length from.now → q < length from.now → entry W.absent into.new p q ≡ entry W.absent from.now p q }
    ensures beyond { Beyond W.absent (length from.now) into.old into.new }
{
    let n = from.len();
    // An index: after a loop over a zip with `iter_mut` no fact about what was written is to be had.
    for (p, row) in into.iter_mut().enumerate() {
        row[..n].copy_from_slice(&from[p][..n]);
    }
}
