// A row's parent at a position, looked up among its edges by halving, and how far it holds.
ghost use Rattle.std.specs.Prelude.{◌≡◌, ℕ, ◌<◌, ◌≤◌, length};
ghost use Rattle.meaning.specs.Columns.{edges_in};
ghost use Rattle.ancestry.specs.Index.{begins};
ghost use Rattle.ancestry.specs.Stretch.{stretch_at};
ghost use Rattle.ancestry.specs.Lookup.{Lefts, After, Carried, none_until};

use super::edge_index::EdgeIndex;
use super::index::cell_at;
use super::{ParentColumn, Stretch};
use meaning::columns::EdgeColumns;

// The first place of row u's edges.
fn first_place(ends: &[u32], u: u32) -> usize
    requires { u < length ends.now }
    ensures { result ≡ begins ends.now u }
{
    if u == 0 {
        return 0;
    }
    ends[(u - 1) as usize] as usize
}

// The first place in a range whose edge begins after x, or the range's end.
// Halving moves two bounds and counts nothing, so it is a while.
fn place_after(left: &[u32], by_child: &[u32], from: usize, to: usize, x: u32) -> usize
    requires { Lefts left.now by_child.now from to }
    ensures { After left.now by_child.now from to x result }
{
    let mut low = from;
    let mut high = to;
    while low < high {
        let m = order::ranks::middle(low, high);
        if cell_at(left, by_child, m) <= x {
            low = m + 1;
        } else {
            high = m;
        }
    }
    low
}

// None, which holds up to the edge at a place, or where the range is over to the chromosome's end.
fn none_from(len: u32, left: &[u32], by_child: &[u32], place: usize, to: usize) -> Stretch
    requires { Lefts left.now by_child.now place to }
    ensures { result ≡ none_until len left.now by_child.now place to }
{
    if place < to {
        return Stretch {
            parent: ParentColumn::NONE,
            end: cell_at(left, by_child, place),
        };
    }
    Stretch {
        parent: ParentColumn::NONE,
        end: len,
    }
}

// How far the parent of the edge at a place holds: over the edges after it that touch and have the same parent.
fn carried_end(edges: EdgeColumns, by_child: &[u32], place: usize, to: usize) -> u32
    requires { Lefts edges.left.now by_child.now place to × (place < to) }
    ensures { Carried edges.entry.left.now edges.entry.right.now edges.entry.parent.now by_child.now place to result }
{
    let mut end = cell_at(edges.right, by_child, place);
    for i in place + 1..to {
        if cell_at(edges.left, by_child, i) != end {
            return end;
        }
        if cell_at(edges.parent, by_child, i) != cell_at(edges.parent, by_child, place) {
            return end;
        }
        end = cell_at(edges.right, by_child, i);
    }
    end
}

// The parent of row u at x, and how far it holds.
pub fn parent_from(index: EdgeIndex, x: u32, u: u32) -> Stretch
    requires { u < length index.ends.now }
    ensures { result ≡ stretch_at (edges_in index.entry.edges) index.entry.len x u }
{
    let low = first_place(index.ends, u);
    let high = index.ends[u as usize] as usize;
    let place = place_after(index.edges.left, index.by_child, low, high, x);
    if place <= low {
        return none_from(index.len, index.edges.left, index.by_child, place, high);
    }
    if cell_at(index.edges.right, index.by_child, place - 1) <= x {
        return none_from(index.len, index.edges.left, index.by_child, place, high);
    }
    Stretch {
        parent: cell_at(index.edges.parent, index.by_child, place - 1),
        end: carried_end(index.edges, index.by_child, place - 1, high),
    }
}
