// Whether a fish is missing at a site (M-103): it has no parent and no child at the site's position, and no mutation of its own there.

#![tactic(auto)]

ghost use Rattle.std.specs.Prelude.{◌≡◌, ◌<◌, length};
ghost use Rattle.meaning.specs.Columns.{edges_in};
ghost use Rattle.missing.specs.Alone.{under_row, child_row, missing_row};
ghost use Rattle.missing.specs.Climbable.{Climbable};

use ancestry::ParentColumn;
use ancestry::edge_index::EdgeIndex;
use meaning::columns::EdgeColumns;

// Whether edge row e holds at x and has u as its parent.
#[tactic(auto, unfolding(crate::specs::Alone::under_row))]
pub fn is_under(left: &[u32], right: &[u32], parent: &[u32], x: u32, u: u32, e: usize) -> bool
    requires { (e < length left.now) × (e < length right.now) × (e < length parent.now) }
    ensures { result ≡ under_row left.now right.now parent.now x u e }
{
    parent[e] == u && left[e] <= x && x < right[e]
}

// Whether row u has a child at x.
fn has_child(edges: EdgeColumns, x: u32, u: u32) -> bool
    ensures { result ≡ child_row edges.entry.left.now edges.entry.right.now edges.entry.parent.now x u }
{
    for e in 0..edges.left.len() {
        if is_under(edges.left, edges.right, edges.parent, x, u, e) {
            return true;
        }
    }
    false
}

// Whether row u is missing at x, by the marks of the site's mutations: a byte for each row, 1 where it has one.
pub fn is_missing(index: EdgeIndex, time: &[u32], has: &[u8], x: u32, u: u32) -> bool
    requires { Climbable time.now (edges_in index.edges) index.ends.now has.now u }
    ensures { result ≡ missing_row (edges_in index.entry.edges) x has.now u }
{
    if has[u as usize] == 1 {
        return false;
    }
    let s = ancestry::lookup::parent_from(index, x, u);
    let p = s.parent;
    if p != ParentColumn::NONE {
        return false;
    }
    let below = has_child(index.edges, x, u);
    !below
}
