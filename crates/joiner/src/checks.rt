// 1 to 10 of the base, then 20 to 26 of the batch.
ghost use Rattle.std.specs.Prelude.{◌≡◌, length, take};
ghost use Rattle.meaning.specs.Rows.{age_table, edge_table, mutation_table};
ghost use Rattle.meaning.specs.Columns.{lent_in, batch_in};
ghost use Rattle.meaning.specs.Answer.{done, limits, checked_of};
ghost use Rattle.meaning.specs.Check.{check_then};
ghost use Rattle.meaning.specs.Join.{batch_tables, batch_shapes, batch_sizes, batch_rules};
ghost use Rattle.rules.specs.Lengths.{refuse_table};
ghost use Rattle.order.specs.Ranks.{Ranked};
ghost use Rattle.batches.specs.Lengths.{ragged_of, large_of};
ghost use Rattle.batches.specs.Asked.{read_base};
ghost use Rattle.joint.specs.Asked.{BaseAsked};
ghost use Rattle.joiner.specs.Orders.{BirthsOrdered};

use batches::births::Nodes;
use meaning::columns::{Ages, Batch, BatchTables, EdgeColumns, Lent, MutationColumns};
use meaning::{EdgeTable, Refusal};

// 1 to 10 of the base; the front of by_birth is left with its nodes by birth where nothing is refused.
fn base_checked(len: u32, base: Lent, by_birth: &mut [u32]) -> Result<(), Refusal>
    requires { length by_birth.old ≡ 1024 }
    ensures { (checked_of result ≡ check_then limits len (lent_in base.entry) done)
        × BirthsOrdered result base.entry.birth.now (take (length base.entry.birth.now) by_birth.new) }
{
    let mut by_child = [0u32; EdgeTable::MOST];
    checker::check_lent(len, base, &mut by_child, by_birth)
}

// 20 to 26 of a batch, over a base that is sound and has its nodes by birth; the front of by_birth is left with the batch's nodes by birth where nothing is refused.
fn batch_checked<'a>(
    len: u32,
    base: Lent<'a>,
    base_by_birth: &'a [u32],
    batch: Batch,
    by_birth: &mut [u32],
) -> Result<(), Refusal>
    requires { BaseAsked (age_table base.time.now base.birth.now) (edge_table base.left.now base.right.now base.parent.now base.child.now) base.position.now
        × Ranked base.birth.now base_by_birth.now
        × (length by_birth.old ≡ 1024) }
    ensures { (checked_of result
        ≡ refuse_table 20 (ragged_of (batch_in batch.entry)) (refuse_table 21 (large_of limits (lent_in base.entry) (batch_in batch.entry))
        (batch_rules len (read_base base.entry.time.now base.entry.birth.now (edge_table base.entry.left.now base.entry.right.now base.entry.parent.now base.entry.child.now) base.entry.position.now)
        (batch_tables (age_table batch.entry.time.now batch.entry.birth.now)
        (edge_table batch.entry.left.now batch.entry.right.now batch.entry.parent.now batch.entry.child.now)
        (mutation_table batch.entry.site.now batch.entry.node.now batch.entry.derived.now)) done)))
        × BirthsOrdered result batch.entry.birth.now (take (length batch.entry.birth.now) by_birth.new) }
{
    let n = batch.birth.len();
    batches::whole::lengths_checked(base, batch)?;
    let base_nodes = Nodes {
        ages: Ages {
            time: base.time,
            birth: base.birth,
        },
        by_birth: base_by_birth,
    };
    let base_edges = EdgeColumns {
        left: base.left,
        right: base.right,
        parent: base.parent,
        child: base.child,
    };
    let even = BatchTables {
        ages: Ages {
            time: batch.time,
            birth: batch.birth,
        },
        edges: EdgeColumns {
            left: batch.left,
            right: batch.right,
            parent: batch.parent,
            child: batch.child,
        },
        mutations: MutationColumns {
            site: batch.site,
            node: batch.node,
            derived: batch.derived,
        },
    };
    batches::whole::rules_checked(
        len,
        base_nodes,
        base_edges,
        base.position,
        even,
        &mut by_birth[..n],
    )
}

// 1 to 10 of the base, then 20 to 26 of the batch: all of a join's answers but 13; the fronts of base_by_birth and by_birth are left with the nodes by birth where nothing is refused.
pub fn check_join(
    len: u32,
    base: Lent,
    base_by_birth: &mut [u32],
    batch: Batch,
    by_birth: &mut [u32],
) -> Result<(), Refusal>
    requires { (length base_by_birth.old ≡ 1024) × (length by_birth.old ≡ 1024) }
    ensures { (checked_of result
        ≡ check_then limits len (lent_in base.entry)
        (batch_shapes (batch_in batch.entry)
        (batch_sizes limits (lent_in base.entry) (batch_in batch.entry)
        (batch_rules len (lent_in base.entry) (batch_in batch.entry) done))))
        × BirthsOrdered result base.entry.birth.now (take (length base.entry.birth.now) base_by_birth.new)
        × BirthsOrdered result batch.entry.birth.now (take (length batch.entry.birth.now) by_birth.new) }
{
    let n = base.birth.len();
    base_checked(len, base, base_by_birth)?;
    batch_checked(len, base, &base_by_birth[..n], batch, by_birth)
}
