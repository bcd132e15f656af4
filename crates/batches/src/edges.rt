// Rules 23 and 24: the edges of a batch by birth number.
ghost use Rattle.std.specs.Prelude.{◌≡◌, ◌<◌, ◌≤◌, length};
ghost use Rattle.meaning.specs.Words.{lowest_row};
ghost use Rattle.meaning.specs.Columns.{ages_in, edges_in};
ghost use Rattle.meaning.specs.Answer.{limits};
ghost use Rattle.meaning.specs.Check.{edge_shared};
ghost use Rattle.meaning.specs.Join.{batch_edge};
ghost use Rattle.rules.specs.Lined.{Somewhere};

use crate::births::Both;
use meaning::EdgeTable;
use meaning::columns::EdgeColumns;

// Whether the child of batch edge i is no batch node, its parent is nowhere, it holds nowhere or past the chromosome, or its
// parent is not older.
fn batch_edge_at(len: u32, nodes: Both, edges: EdgeColumns, i: usize) -> bool
    requires { i < length edges.left.now }
    ensures { result ≡ batch_edge len (ages_in nodes.entry.base.ages) (ages_in nodes.entry.batch.ages) (edges_in edges.entry) i }
{
    if !nodes.batch.have(edges.child[i]) {
        return true;
    }
    if nodes.lack(edges.parent[i]) {
        return true;
    }
    if edges.right[i] <= edges.left[i] {
        return true;
    }
    if len < edges.right[i] {
        return true;
    }
    nodes.time_of(edges.parent[i]) <= nodes.time_of(edges.child[i])
}

// 23: the lowest such edge.
pub fn first_batch_edge(len: u32, nodes: Both, edges: EdgeColumns) -> Option<usize>
    ensures { result
        ≡ lowest_row (batch_edge len (ages_in nodes.entry.base.ages) (ages_in nodes.entry.batch.ages) (edges_in edges.entry)) (length edges.entry.left.now) }
{
    for i in 0..edges.left.len() {
        if batch_edge_at(len, nodes, edges, i) {
            return Some(i);
        }
    }
    None
}

// 24: the lowest edge that shares a position with an earlier edge of its child, by rule 7, whose order of the edges no later rule of a batch needs.
pub fn first_batch_shared(edges: EdgeColumns) -> Option<usize>
    requires { Somewhere (edges_in edges) × (length edges.left.now ≤ limits.edges) }
    ensures { result ≡ lowest_row (edge_shared (edges_in edges.entry)) (length edges.entry.left.now) }
{
    let n = edges.left.len();
    let mut by_child = [0u32; EdgeTable::MOST];
    rules::edges::first_shared(edges, &mut by_child[..n])
}
