// The rules 20 to 26 in their order.
ghost use Rattle.std.specs.Prelude.{◌≡◌, length};
ghost use Rattle.meaning.specs.Columns.{edges_in, lent_in, batch_in, batch_tables_in};
ghost use Rattle.meaning.specs.Answer.{done, limits, checked_of};
ghost use Rattle.meaning.specs.Join.{batch_rules};
ghost use Rattle.rules.specs.Lengths.{refuse_table};
ghost use Rattle.order.specs.Ranks.{Ranked};
ghost use Rattle.batches.specs.Lengths.{ragged_of, large_of};
ghost use Rattle.batches.specs.Asked.{read_base, BatchAsked};

use crate::births::{Both, Nodes};
use meaning::Refusal;
use meaning::columns::{Batch, BatchTables, EdgeColumns, Lent};

// 20 and 21 on lengths alone.
pub fn lengths_checked(base: Lent, batch: Batch) -> Result<(), Refusal>
    ensures { checked_of result ≡ refuse_table 20 (ragged_of (batch_in batch.entry)) (refuse_table 21 (large_of limits (lent_in base.entry) (batch_in batch.entry)) done) }
{
    if let Some(t) = crate::lengths::ragged_batch(batch) {
        return Err(Refusal::BatchRagged(t));
    }
    if let Some(t) = crate::lengths::large_batch(base, batch) {
        return Err(Refusal::BatchTooMany(t));
    }
    Ok(())
}

// 22 to 26, over a base that is sound, with its nodes by birth; by_birth is left with the batch's nodes by birth.
// The base's edges are lent for what the answer says: what is above a batch's node is told by the batch's own.
pub fn rules_checked<'a>(
    len: u32,
    base: Nodes<'a>,
    base_edges: EdgeColumns,
    position: &[u32],
    batch: BatchTables<'a>,
    by_birth: &'a mut [u32],
) -> Result<(), Refusal>
    requires { BatchAsked (read_base base.ages.time.now base.ages.birth.now (edges_in base_edges) position.now) (batch_tables_in batch)
        × (length by_birth.old ≡ length batch.ages.birth.now) }
    ensures { (checked_of result
        ≡ batch_rules len (read_base base.entry.ages.time.now base.entry.ages.birth.now (edges_in base_edges.entry) position.now)
        (batch_tables_in batch.entry) done) × Ranked batch.entry.ages.birth.now by_birth.new }
{
    if let Some(i) = crate::births::first_batch_birth(
        base.ages.birth,
        base.by_birth,
        batch.ages.birth,
        by_birth,
    ) {
        return Err(Refusal::BatchBirth(i));
    }
    let nodes = Both {
        base,
        batch: Nodes {
            ages: batch.ages,
            by_birth,
        },
    };
    if let Some(i) = crate::edges::first_batch_edge(len, nodes, batch.edges) {
        return Err(Refusal::BatchEdge(i));
    }
    if let Some(i) = crate::edges::first_batch_shared(batch.edges) {
        return Err(Refusal::BatchShared(i));
    }
    if let Some(i) = crate::mutations::first_batch_mutation(
        position.len(),
        batch.ages.birth,
        nodes.batch.by_birth,
        batch.mutations.site,
        batch.mutations.node,
    ) {
        return Err(Refusal::BatchMutation(i));
    }
    if let Some(i) = crate::above::first_batch_above(
        len,
        nodes,
        position,
        batch.edges,
        batch.mutations.site,
        batch.mutations.node,
    ) {
        return Err(Refusal::BatchAbove(i));
    }
    Ok(())
}
