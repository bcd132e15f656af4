// Columns put together: two columns in a row, births turned into rows, cells taken by a column of rows.
ghost use Rattle.std.specs.Prelude.{◌≡◌, ◌++◌, get_or, map, ℕ, ◌+◌, ◌<◌, ◌≤◌, length};
ghost use Rattle.meaning.specs.Words.{at, index_of};
ghost use Rattle.meaning.specs.Answer.{put, limits};
ghost use Rattle.order.specs.Order.{Inside};
ghost use Rattle.batches.specs.Joint.{rows_in};

use crate::births::Both;
use order::wide;

// Puts a column and a second one after it to the front of out.
pub fn append<T: Copy>(a: &[T], b: &[T], out: &mut [T])
    requires { length a.now + length b.now ≤ length out.old }
    ensures { out.new ≡ put (a.now ++ b.now) out.old }
{
    let n = a.len();
    order::copy(a, &mut out[..n]);
    order::copy(b, &mut out[n..n + b.len()]);
}

// Puts the cells of src that idx names, in idx's order, to the front of out.
pub fn gather<T: Copy>(src: &[T], idx: &[u32], out: &mut [T])
    requires { (length idx.now ≤ length out.old) × Inside (length src.now) idx.now }
    ensures { (other : T) → out.new ≡ put (map (λ r. get_or src.now r other) idx.now) out.old }
{
    for (i, row) in idx.iter().enumerate() {
        out[i] = src[wide(*row)];
    }
}

// Cell i of a column and a second one after it.
fn joined_cell<T: Copy>(a: &[T], b: &[T], i: usize) -> T
    requires { i < length a.now + length b.now }
    ensures { (other : T) → result ≡ get_or (a.now ++ b.now) i other }
{
    if i < a.len() {
        return a[i];
    }
    b[i - a.len()]
}

// Puts the cells that idx names, in idx's order, to the front of out: cells of a column and a second one after it.
pub fn gather_both<T: Copy>(a: &[T], b: &[T], idx: &[u32], out: &mut [T])
    requires { (length idx.now ≤ length out.old) × Inside (length a.now + length b.now) idx.now }
    ensures { (other : T) → out.new ≡ put (map (λ r. get_or (a.now ++ b.now) r other) idx.now) out.old }
{
    for (i, row) in idx.iter().enumerate() {
        out[i] = joined_cell(a, b, wide(*row));
    }
}

// The row of birth i of names, where the births before it have theirs in out: a birth that is repeated is not looked for again.
fn next_row(nodes: Both, names: &[u32], out: &[u32], i: usize) -> u32
    requires { (i < length names.now) × (length names.now ≤ length out.now) × (length nodes.base.ages.birth.now + length nodes.batch.ages.birth.now ≤ limits.nodes) × ((j : ℕ) → j < i → at out.now j ≡ index_of (at names.now j) (nodes.base.ages.birth.now ++ nodes.batch.ages.birth.now)) }
    ensures { result ≡ index_of (at names.now i) (nodes.entry.base.ages.birth.now ++ nodes.entry.batch.ages.birth.now) }
{
    if i != 0 && names[i] == names[i - 1] {
        return out[i - 1];
    }
    nodes.row_of(names[i])
}

// Puts the rows of the births that names has to the front of out.
pub fn rows_of(nodes: Both, names: &[u32], out: &mut [u32])
    requires { (length names.now ≤ length out.old) × (length nodes.base.ages.birth.now + length nodes.batch.ages.birth.now ≤ limits.nodes) }
    ensures { out.new ≡ put (rows_in (nodes.entry.base.ages.birth.now ++ nodes.entry.batch.ages.birth.now) names.now) out.old }
{
    for i in 0..names.len() {
        let row = next_row(nodes, names, out, i);
        out[i] = row;
    }
}
