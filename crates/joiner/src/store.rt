// The result of a join written to the lent columns, table by table, once all of it is known to fit.
ghost use Rattle.std.specs.Prelude.{◌≡◌, ◌++◌, ◌+◌, ◌≤◌, length};
ghost use Rattle.meaning.specs.Rows.{node_table, edge_table, site_table, mutation_table, tables};
ghost use Rattle.meaning.specs.Answer.{put};
ghost use Rattle.meaning.specs.Columns.{lent_in, batch_in};
ghost use Rattle.meaning.specs.Join.{joined_of};
ghost use Rattle.order.specs.Ranks.{Ranked};
ghost use Rattle.joiner.specs.Joinable.{Joinable};
ghost use Rattle.joiner.specs.Outcome.{after_checks};

use batches::births::{Both, Nodes};
use meaning::columns::{Ages, Batch, EdgeColumns, Lent, MutationColumns};
use meaning::{Counts, Refusal};
use writing::{Lengths, Needs};

// Table 1: the base's nodes, then the batch's.
fn write_nodes(
    base: Lent,
    batch: Batch,
    out_time: &mut [u32],
    out_birth: &mut [u32],
    out_population: &mut [u16],
)
    requires { (length base.time.now + length batch.time.now ≤ length out_time.old)
        × (length base.birth.now + length batch.birth.now ≤ length out_birth.old)
        × (length base.population.now + length batch.population.now ≤ length out_population.old) }
    ensures { (out_time.new ≡ put (base.entry.time.now ++ batch.entry.time.now) out_time.old)
        × (out_birth.new ≡ put (base.entry.birth.now ++ batch.entry.birth.now) out_birth.old)
        × (out_population.new ≡ put (base.entry.population.now ++ batch.entry.population.now) out_population.old) }
{
    batches::columns::append(base.time, batch.time, out_time);
    batches::columns::append(base.birth, batch.birth, out_birth);
    batches::columns::append(base.population, batch.population, out_population);
}

// Table 3: the base's sites, unchanged.
fn write_sites(base: Lent, out_position: &mut [u32], out_ancestral: &mut [u8])
    requires { (length base.ancestral.now ≡ length base.position.now)
        × (length base.position.now ≤ length out_position.old)
        × (length base.position.now ≤ length out_ancestral.old) }
    ensures { (out_position.new ≡ put base.entry.position.now out_position.old)
        × (out_ancestral.new ≡ put base.entry.ancestral.now out_ancestral.old) }
{
    let n = base.position.len();
    order::copy(base.position, &mut out_position[..n]);
    order::copy(base.ancestral, &mut out_ancestral[..n]);
}

// 13 with nothing written, or the result at the front of each column; base_by_birth and by_birth have the nodes by birth.
pub fn store<'a>(
    len: u32,
    base: Lent<'a>,
    base_by_birth: &'a [u32],
    batch: Batch<'a>,
    by_birth: &'a [u32],
    out_time: &mut [u32],
    out_birth: &mut [u32],
    out_population: &mut [u16],
    out_left: &mut [u32],
    out_right: &mut [u32],
    out_parent: &mut [u32],
    out_child: &mut [u32],
    out_position: &mut [u32],
    out_ancestral: &mut [u8],
    out_site: &mut [u32],
    out_node: &mut [u32],
    out_derived: &mut [u8],
    cells: usize,
) -> Result<Counts, Refusal>
    requires { Joinable len (lent_in base) (batch_in batch) × Ranked base.birth.now base_by_birth.now × Ranked batch.birth.now by_birth.now }
    ensures { joined_of result
        (tables
        (node_table out_time.new out_birth.new out_population.new)
        (edge_table out_left.new out_right.new out_parent.new out_child.new)
        (site_table out_position.new out_ancestral.new)
        (mutation_table out_site.new out_node.new out_derived.new))
        ≡ after_checks len (lent_in base.entry) (batch_in batch.entry)
        (tables
        (node_table out_time.old out_birth.old out_population.old)
        (edge_table out_left.old out_right.old out_parent.old out_child.old)
        (site_table out_position.old out_ancestral.old)
        (mutation_table out_site.old out_node.old out_derived.old)) cells }
{
    let nodes = base.time.len() + batch.time.len();
    let edges = base.left.len() + batch.left.len();
    let mutations = base.site.len() + batch.site.len();
    let sites = base.position.len();
    let need = Needs {
        nodes,
        edges,
        sites,
        mutations,
        rows: 0,
    };
    let lent = Lengths {
        time: out_time.len(),
        birth: out_birth.len(),
        population: out_population.len(),
        left: out_left.len(),
        right: out_right.len(),
        parent: out_parent.len(),
        child: out_child.len(),
        position: out_position.len(),
        ancestral: out_ancestral.len(),
        site: out_site.len(),
        node: out_node.len(),
        derived: out_derived.len(),
        nodemap: 0,
    };
    writing::within::check_room_and_block(need, lent, cells)?;
    let both = Both {
        base: Nodes {
            ages: Ages {
                time: base.time,
                birth: base.birth,
            },
            by_birth: base_by_birth,
        },
        batch: Nodes {
            ages: Ages {
                time: batch.time,
                birth: batch.birth,
            },
            by_birth,
        },
    };
    let base_edges = EdgeColumns {
        left: base.left,
        right: base.right,
        parent: base.parent,
        child: base.child,
    };
    let batch_edges = EdgeColumns {
        left: batch.left,
        right: batch.right,
        parent: batch.parent,
        child: batch.child,
    };
    let base_mutations = MutationColumns {
        site: base.site,
        node: base.node,
        derived: base.derived,
    };
    let batch_mutations = MutationColumns {
        site: batch.site,
        node: batch.node,
        derived: batch.derived,
    };
    write_nodes(base, batch, out_time, out_birth, out_population);
    joint::edges::join_edges(
        len,
        both,
        base_edges,
        batch_edges,
        out_left,
        out_right,
        out_parent,
        out_child,
    );
    write_sites(base, out_position, out_ancestral);
    joint::mutations::join_mutations(
        both,
        base_mutations,
        batch_mutations,
        out_site,
        out_node,
        out_derived,
    );
    Ok(Counts {
        nodes,
        edges,
        sites,
        mutations,
    })
}
