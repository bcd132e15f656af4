// Rules 20 and 21: the lengths of the batch's columns, and of base and batch together.
ghost use Rattle.std.specs.Prelude.{◌≡◌, ◌+◌, ltb};
ghost use Rattle.meaning.specs.Columns.{lent_in, batch_in};
ghost use Rattle.meaning.specs.Answer.{limits};
ghost use Rattle.rules.specs.Lengths.{table_of};
ghost use Rattle.batches.specs.Lengths.{ragged_of, large_of};

use meaning::columns::{Batch, Lent};
use meaning::{EdgeTable, MutationTable, NodeTable};

// 20: the lowest batch table whose columns differ in length.
pub fn ragged_batch(batch: Batch) -> Option<usize>
    ensures { result ≡ table_of (ragged_of (batch_in batch.entry)) }
{
    if batch.birth.len() != batch.time.len() {
        return Some(NodeTable::NUMBER);
    }
    if batch.population.len() != batch.time.len() {
        return Some(NodeTable::NUMBER);
    }
    if batch.right.len() != batch.left.len() {
        return Some(EdgeTable::NUMBER);
    }
    if batch.parent.len() != batch.left.len() {
        return Some(EdgeTable::NUMBER);
    }
    if batch.child.len() != batch.left.len() {
        return Some(EdgeTable::NUMBER);
    }
    if batch.node.len() != batch.site.len() {
        return Some(MutationTable::NUMBER);
    }
    if batch.derived.len() != batch.site.len() {
        return Some(MutationTable::NUMBER);
    }
    None
}

// Whether a and b rows together are more than the limit.
fn passes(most: usize, a: usize, b: usize) -> bool
    ensures { result ≡ ltb most (a + b) }
{
    most < a || most - a < b
}

// 21: the lowest table that base and batch together make too long.
pub fn large_batch(base: Lent, batch: Batch) -> Option<usize>
    ensures { result ≡ table_of (large_of limits (lent_in base.entry) (batch_in batch.entry)) }
{
    if passes(NodeTable::MOST, base.time.len(), batch.time.len()) {
        return Some(NodeTable::NUMBER);
    }
    if passes(EdgeTable::MOST, base.left.len(), batch.left.len()) {
        return Some(EdgeTable::NUMBER);
    }
    if passes(MutationTable::MOST, base.site.len(), batch.site.len()) {
        return Some(MutationTable::NUMBER);
    }
    None
}
