//! Rows and tables of what a function gives at their places.
ghost use Rattle.std.specs.Prelude.{ℕ, ◌<◌, ◌≤◌, [], slice_index_or};

/// Fills the first n places of a row with what `item` gives there.
// An array and a number: after a part of an array was lent as a slice, a proof cannot name the whole.
pub(crate) fn fill_row<T: Copy, F: Fn(usize) -> T>(row: &mut [T; 32], n: usize, item: F)
    requires fits { n ≤ 32 }
    requires callable { (k : ℕ) → k < n → F.pre item k }
    ensures { (d : T) (k : ℕ) → k < n → F.post item k (slice_index_or row.new k d) }
{
    for (k, place) in row[..n].iter_mut().enumerate() {
        *place = item(k);
    }
}

/// Fills the first m places of the first n rows of a table with what `item` gives there.
// The table is lent: where it was the result, judging 3000 cards took 5.3 thousand million instructions in place of 3.7.
pub(crate) fn fill_table<T: Copy, const R: usize, F: Fn(usize, usize) -> T>(
    table: &mut [[T; 32]; R],
    n: usize,
    m: usize,
    item: F,
)
    requires fits { (n ≤ R) × (m ≤ 32) }
    requires callable { (i k : ℕ) → i < n → k < m → F.pre item i k }
    ensures { (d : T) (i k : ℕ) → i < n → k < m → F.post item i k (slice_index_or (slice_index_or table.new i []) k d) }
{
    for (i, row) in table[..n].iter_mut().enumerate() {
        for (k, place) in row[..m].iter_mut().enumerate() {
            *place = item(i, k);
        }
    }
}
