// Rule 26: rule 10 among the mutations of a batch, which stand in any order of their sites. Nodes are named by their rows.
ghost use Rattle.std.specs.Prelude.{◌≡◌, List, ℕ, length, ◌++◌};
ghost use Rattle.meaning.specs.Words.{at, lowest_row};
ghost use Rattle.meaning.specs.Columns.{edges_in};
ghost use Rattle.overtaking.specs.Overtaken.{overtaken};
ghost use Rattle.batches.specs.Asked.{Above, Unlined};
ghost use Rattle.meaning.specs.Rows.{EdgeColumns as EdgeTables, edges_of, mutation_table};
ghost use Rattle.meaning.specs.Check.{mutation_above};

use crate::births::Both;
use meaning::columns::EdgeColumns;
use meaning::{EdgeTable, MutationTable, NodeTable};
use overtaking::sites::BySite;

// The lowest mutation that is above an earlier one of its site, found with the mutations in the order of their sites; the last four are working columns.
fn lowest_by_site<'a>(
    len: u32,
    time: &'a [u32],
    edges: EdgeColumns,
    position: &'a [u32],
    site: &[u32],
    node: &[u32],
    by_child: &mut [u32],
    row: &mut [u32],
    rowsite: &'a mut [u32],
    rownode: &'a mut [u32],
) -> Option<usize>
    requires { Unlined len time.now (edges_in edges) position.now site.now node.now × (length by_child.old ≡ length edges.left.now) × (length row.old ≡ length site.now) × (length rowsite.old ≡ length site.now) × (length rownode.old ≡ length site.now) }
    ensures { result ≡ lowest_row (overtaken (edges_in edges.entry) position.now site.now node.now) (length site.now) }
{
    order::ranks::rank(site, row);
    crate::columns::gather(site, row, rowsite);
    crate::columns::gather(node, row, rownode);
    let mutations = BySite {
        time,
        position,
        site: rowsite,
        node: rownode,
    };
    overtaking::least_row_above(len, edges, mutations, row, by_child)
}

// The same, with the working columns on the stack.
fn lowest_overtaken(
    len: u32,
    time: &[u32],
    edges: EdgeColumns,
    position: &[u32],
    site: &[u32],
    node: &[u32],
) -> Option<usize>
    requires { Unlined len time.now (edges_in edges) position.now site.now node.now }
    ensures { result ≡ lowest_row (overtaken (edges_in edges.entry) position.now site.now node.now) (length site.now) }
{
    let mut by_child = [0u32; EdgeTable::MOST];
    let mut row = [0u32; MutationTable::MOST];
    let mut rowsite = [0u32; MutationTable::MOST];
    let mut rownode = [0u32; MutationTable::MOST];
    let m = edges.left.len();
    let k = site.len();
    lowest_by_site(
        len,
        time,
        edges,
        position,
        site,
        node,
        &mut by_child[..m],
        &mut row[..k],
        &mut rowsite[..k],
        &mut rownode[..k],
    )
}

// 26: the lowest batch mutation that is above an earlier one of its site; the batch's edges alone decide, since all that is above a base node is in the base.
// So the base's edges are not lent: it is enough that there are some with which base and batch fit together, and the answer is that of any such edges and any derived states.
pub fn first_batch_above(
    len: u32,
    nodes: Both,
    position: &[u32],
    edges: EdgeColumns,
    site: &[u32],
    node: &[u32],
) -> Option<usize>
    requires { (base : EdgeTables) × Above len nodes.base.ages.time.now nodes.base.ages.birth.now base position.now
        nodes.batch.ages.time.now nodes.batch.ages.birth.now (edges_in edges) site.now node.now }
    ensures { (base : EdgeTables) → Above len nodes.entry.base.ages.time.now nodes.entry.base.ages.birth.now base position.now
        nodes.entry.batch.ages.time.now nodes.entry.batch.ages.birth.now (edges_in edges.entry) site.now node.now
        → (derived : List ℕ) → result
        ≡ lowest_row (mutation_above (edges_of (at nodes.entry.base.ages.birth.now) base ++ edges_of (λ b. b) (edges_in edges.entry)) position.now (λ b. b)
        (mutation_table site.now node.now derived)) (length site.now) }
{
    // without a mutation no column is cleared
    if site.len() == 0 {
        return None;
    }
    let mut alltime = [0u32; NodeTable::MOST];
    let mut parentrow = [0u32; EdgeTable::MOST];
    let mut childrow = [0u32; EdgeTable::MOST];
    let mut noderow = [0u32; MutationTable::MOST];
    let n = nodes.base.ages.time.len() + nodes.batch.ages.time.len();
    let m = edges.left.len();
    let k = node.len();
    crate::columns::append(nodes.base.ages.time, nodes.batch.ages.time, &mut alltime);
    crate::columns::rows_of(nodes, edges.parent, &mut parentrow);
    crate::columns::rows_of(nodes, edges.child, &mut childrow);
    crate::columns::rows_of(nodes, node, &mut noderow);
    let by_rows = EdgeColumns {
        left: edges.left,
        right: edges.right,
        parent: &parentrow[..m],
        child: &childrow[..m],
    };
    lowest_overtaken(len, &alltime[..n], by_rows, position, site, &noderow[..k])
}
