// The end of each row's edges among the edges by child, in which its parents are looked up.
ghost use Rattle.std.specs.Prelude.{◌≡◌, ℕ, ◌<◌, ◌≤◌, length};
ghost use Rattle.meaning.specs.Words.{at};
ghost use Rattle.meaning.specs.Columns.{edges_in};
ghost use Rattle.rules.specs.ByChild.{ByChild};
ghost use Rattle.ancestry.specs.Index.{Ends, Grouped, Passed, Skipped};

use meaning::columns::EdgeColumns;

// The cell of the edge at a place.
pub fn cell_at(column: &[u32], by_child: &[u32], place: usize) -> u32
    requires { (place < length by_child.now) × (at by_child.now place < length column.now) }
    ensures { result ≡ at column.now (at by_child.now place) }
{
    column[by_child[place] as usize]
}

// Moves on from a place over the edges of row u and of lower rows.
fn skip(child: &[u32], by_child: &[u32], u: u32, from: usize) -> usize
    requires { Grouped child.now by_child.now × Passed child.now by_child.now u from }
    ensures { Skipped child.now by_child.now u result }
{
    for i in from..by_child.len() {
        if u < cell_at(child, by_child, i) {
            return i;
        }
    }
    by_child.len()
}

// Fills in the end of each row's edges in one pass over the rows and the edges.
pub fn fill_ends(edges: EdgeColumns, by_child: &[u32], ends: &mut [u32])
    requires { ByChild (edges_in edges) by_child.now
        × (length edges.left.now ≤ 4294967295) × (length ends.old ≤ 4294967295) }
    ensures { Ends edges.entry.child.now by_child.now ends.new }
{
    let mut i = 0;
    for (u, end) in ends.iter_mut().enumerate() {
        i = skip(edges.child, by_child, u as u32, i);
        *end = i as u32;
    }
}
