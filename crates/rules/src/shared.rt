// Rule 7: edges of one child that share a position, and the edges by child.
ghost use Rattle.std.specs.Prelude.{◌≡◌, false, ℕ, ◌<◌, ◌≤◌, length};
ghost use Rattle.meaning.specs.Columns.{edges_in};
ghost use Rattle.meaning.specs.Check.{share, edge_shared};
ghost use Rattle.rules.specs.Lined.{Lined, Somewhere, Ascending};
ghost use Rattle.rules.specs.ByChild.{ByChild};
ghost use Rattle.rules.specs.Mutual.{share_even};

use crate::lined::Relation;
use meaning::columns::EdgeColumns;

// Edges of one child that share a position are related.
impl<'a> Relation for EdgeColumns<'a> {
    ghost relates = { λ e. share (edges_in e) };

    ghost many = { λ e. length e.left.now };

    ghost even = { λ e. share_even (edges_in e) };

    fn relate(&self, j: u32, i: u32) -> bool {
        let j = j as usize;
        let i = i as usize;
        if self.child[j] != self.child[i] {
            return false;
        }
        if self.right[i] <= self.left[j] {
            return false;
        }
        self.left[i] < self.right[j]
    }
}

// Sorts the edges by (child, left); each of them holds somewhere.
pub fn line_up(edges: EdgeColumns, idx: &mut [u32])
    requires { Somewhere (edges_in edges) × (length idx.old ≡ length edges.left.now)
        × (length edges.left.now ≤ 4294967296) }
    ensures { Lined (share (edges_in edges.entry)) (length edges.entry.left.now) idx.new
        × Ascending (edges_in edges.entry) idx.new }
{
    order::iota(idx);
    order::sort_two(edges.child, edges.left, idx);
}

// The edges by child, of edges that rule 7 has passed.
pub fn by_child(edges: EdgeColumns, idx: &mut [u32])
    requires { Somewhere (edges_in edges) × (length idx.old ≡ length edges.left.now)
        × (length edges.left.now ≤ 4294967296)
        × ((i : ℕ) → i < length edges.left.now → edge_shared (edges_in edges) i ≡ false) }
    ensures { ByChild (edges_in edges.entry) idx.new }
{
    line_up(edges, idx);
}
