// Joining a batch: base and batch are checked, and all is written once it is known to fit.

#![tactic(auto)]

ghost use Rattle.std.specs.Prelude.{◌≡◌};
ghost use Rattle.meaning.specs.Rows.{node_table, edge_table, site_table, mutation_table, tables};
ghost use Rattle.meaning.specs.Answer.{limits};
ghost use Rattle.meaning.specs.Columns.{lent_in, batch_in};
ghost use Rattle.meaning.specs.Join.{joined_of, joining};

pub mod checks; // 1 to 10 of the base, then 20 to 26 of the batch
mod store;

use meaning::columns::{Batch, Lent};
use meaning::{Counts, NodeTable, Refusal};

// Joining: 1 to 10 of the base, 20 to 26 of the batch, 13, or the result at the front of the lent columns.
// `cells` is the size of the block that the caller lends for the row counts: under four, 13 with row 7.
pub fn join(
    len: u32,
    base: Lent,
    batch: Batch,
    out_time: &mut [u32],
    out_birth: &mut [u32],
    out_population: &mut [u16],
    out_left: &mut [u32],
    out_right: &mut [u32],
    out_parent: &mut [u32],
    out_child: &mut [u32],
    out_position: &mut [u32],
    out_ancestral: &mut [u8],
    out_site: &mut [u32],
    out_node: &mut [u32],
    out_derived: &mut [u8],
    cells: usize,
) -> Result<Counts, Refusal>
    ensures { joined_of result
        (tables
        (node_table out_time.new out_birth.new out_population.new)
        (edge_table out_left.new out_right.new out_parent.new out_child.new)
        (site_table out_position.new out_ancestral.new)
        (mutation_table out_site.new out_node.new out_derived.new))
        ≡ joining limits len (lent_in base.entry) (batch_in batch.entry)
        (tables
        (node_table out_time.old out_birth.old out_population.old)
        (edge_table out_left.old out_right.old out_parent.old out_child.old)
        (site_table out_position.old out_ancestral.old)
        (mutation_table out_site.old out_node.old out_derived.old)) cells }
{
    // the checks leave the nodes of base and batch by birth here, for the store
    let mut base_by_birth = [0u32; NodeTable::MOST];
    let mut by_birth = [0u32; NodeTable::MOST];
    let n = base.birth.len();
    let m = batch.birth.len();
    checks::check_join(len, base, &mut base_by_birth, batch, &mut by_birth)?;
    store::store(
        len,
        base,
        &base_by_birth[..n],
        batch,
        &by_birth[..m],
        out_time,
        out_birth,
        out_population,
        out_left,
        out_right,
        out_parent,
        out_child,
        out_position,
        out_ancestral,
        out_site,
        out_node,
        out_derived,
        cells,
    )
}
