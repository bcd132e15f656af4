// Rules of the edges: rows that exist and times that rise, key order, shared positions.
ghost use Rattle.std.specs.Prelude.{◌≡◌, None, ◌<◌, ◌≤◌, length};
ghost use Rattle.meaning.specs.Words.{lowest_row, lex};
ghost use Rattle.meaning.specs.Columns.{ages_in, edges_in};
ghost use Rattle.meaning.specs.Check.{edge_broken, edge_unordered, edge_shared, key_of};
ghost use Rattle.rules.specs.Asked.{NamedNodes};
ghost use Rattle.rules.specs.Lined.{Somewhere};
ghost use Rattle.rules.specs.ByChild.{ByChild};

use meaning::columns::{Ages, EdgeColumns};

// Whether edge i names a row that does not exist, holds nowhere or past the chromosome, or has a parent that is not older.
fn edge_broken_at(len: u32, time: &[u32], edges: EdgeColumns, i: usize) -> bool
    requires { i < length edges.left.now }
    ensures { result ≡ edge_broken len time.now (edges_in edges.entry) i }
{
    let p = edges.parent[i] as usize;
    let c = edges.child[i] as usize;
    if time.len() <= p {
        return true;
    }
    if time.len() <= c {
        return true;
    }
    if edges.right[i] <= edges.left[i] {
        return true;
    }
    if len < edges.right[i] {
        return true;
    }
    time[p] <= time[c]
}

// 5: the lowest such edge.
pub fn first_broken_edge(len: u32, time: &[u32], edges: EdgeColumns) -> Option<usize>
    ensures { result ≡ lowest_row (edge_broken len time.now (edges_in edges.entry)) (length edges.entry.left.now) }
{
    for i in 0..edges.left.len() {
        if edge_broken_at(len, time, edges, i) {
            return Some(i);
        }
    }
    None
}

// Whether the key of edge i is below that of edge j: of two edges of one parent by child and left, and else mostly by the parents' times.
fn key_below(ages: Ages, edges: EdgeColumns, i: usize, j: usize) -> bool
    requires { (i < length edges.left.now) × (j < length edges.left.now) × NamedNodes (ages_in ages) (edges_in edges) }
    ensures { result ≡ lex (key_of (ages_in ages.entry) (edges_in edges.entry) i) (key_of (ages_in ages.entry) (edges_in edges.entry) j) }
{
    let p = edges.parent[i] as usize;
    let q = edges.parent[j] as usize;
    let c = edges.child[i] as usize;
    let d = edges.child[j] as usize;
    if p == q {
        return (ages.birth[c], edges.left[i]) < (ages.birth[d], edges.left[j]);
    }
    if ages.time[p] != ages.time[q] {
        return ages.time[p] < ages.time[q];
    }
    (ages.time[p], ages.birth[p], ages.birth[c], edges.left[i])
        < (ages.time[q], ages.birth[q], ages.birth[d], edges.left[j])
}

// Whether the key of edge i is not above that of the row before.
fn unordered_at(ages: Ages, edges: EdgeColumns, i: usize) -> bool
    requires { (i < length edges.left.now) × NamedNodes (ages_in ages) (edges_in edges) }
    ensures { result ≡ edge_unordered (ages_in ages.entry) (edges_in edges.entry) i }
{
    i > 0 && !key_below(ages, edges, i - 1, i)
}

// 6: the lowest edge whose key is not above that of the row before.
pub fn first_unordered(ages: Ages, edges: EdgeColumns) -> Option<usize>
    requires { NamedNodes (ages_in ages) (edges_in edges) }
    ensures { result ≡ lowest_row (edge_unordered (ages_in ages.entry) (edges_in edges.entry)) (length edges.entry.left.now) }
{
    for i in 0..edges.left.len() {
        if unordered_at(ages, edges, i) {
            return Some(i);
        }
    }
    None
}

// 7: the lowest edge that shares a position with an earlier edge of the same child; by_child is left with the edges by child, for later rules.
pub fn first_shared(edges: EdgeColumns, by_child: &mut [u32]) -> Option<usize>
    requires { Somewhere (edges_in edges) × (length by_child.old ≡ length edges.left.now)
        × (length edges.left.now ≤ 4294967296) }
    ensures { (result ≡ lowest_row (edge_shared (edges_in edges.entry)) (length edges.entry.left.now))
        × (result ≡ None → ByChild (edges_in edges.entry) by_child.new) }
{
    crate::shared::line_up(edges, by_child);
    crate::lined::first_lined(&edges, by_child)
}
