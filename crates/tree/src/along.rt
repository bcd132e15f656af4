// Along the chromosome: edges end and begin by the two orders, from change to change.
ghost use Rattle.std.specs.Prelude.{◌≡◌, List, ℕ, ◌+◌, ◌≤◌, length};
ghost use Rattle.mend.specs.Kept.{Kept};
ghost use Rattle.mend.specs.Listing.{Listed, Noted};
ghost use Rattle.tree.specs.Sweep.{Plan, Between, Swept, Index, next_key, next_change};
ghost use Rattle.tree.specs.TreeAt.{columns, Flags, TreeAt};

use super::edge::{insert_up, remove_up};
use meaning::columns::EdgeColumns;

// How far a sweep has come: edges begun in the order of left, edges ended in the order of right, and rows listed.
#[derive(Clone, Copy, Debug, PartialEq, Eq)]
pub struct Cursor {
    pub begun: usize,
    pub ended: usize,
    pub touched: usize,
}

// The edges that end at x or before leave.
fn end_edges(
    time: &[u32],
    sample: &[u8],
    parent: &mut [u32],
    count: &mut [u32],
    sum: &mut [u32],
    low: &mut [u32],
    up: &mut [u32],
    touched: &mut [u32],
    listed: &mut [u8],
    edges: EdgeColumns,
    bl: &[u32],
    br: &[u32],
    i: usize,
    j0: usize,
    k0: usize,
    x: u32,
) -> Cursor
    requires { Kept time.now sample.now parent.old count.old sum.old low.old up.old ×
        Plan time.now edges.left.now edges.right.now edges.parent.now edges.child.now bl.now br.now (length parent.old) ×
        Between edges.left.now edges.right.now edges.parent.now edges.child.now bl.now br.now parent.old i j0 x x x (x + 1) ×
        Listed (length up.old) k0 touched.old listed.old }
    ensures { Kept time.now sample.now parent.new count.new sum.new low.new up.new ×
        Between edges.entry.left.now edges.entry.right.now edges.entry.parent.now edges.entry.child.now bl.now br.now
        parent.new i result.ended x x (x + 1) (x + 1) ×
        Noted (length up.old) up.old up.new touched.old listed.old touched.new
        listed.new k0 result.touched ×
        (j0 ≤ result.ended) }
{
    let mut k = k0;
    for j in j0..br.len() {
        let e = br[j];
        if x < edges.right[e as usize] {
            return Cursor {
                begun: i,
                ended: j,
                touched: k,
            };
        }
        k = remove_up(
            time,
            sample,
            parent,
            count,
            sum,
            low,
            up,
            touched,
            listed,
            k,
            edges.child[e as usize],
        );
    }
    Cursor {
        begun: i,
        ended: br.len(),
        touched: k,
    }
}

// The edges that begin at x or before enter. They go by the other order and the other end than those that leave.
fn begin_edges(
    time: &[u32],
    sample: &[u8],
    parent: &mut [u32],
    count: &mut [u32],
    sum: &mut [u32],
    low: &mut [u32],
    up: &mut [u32],
    touched: &mut [u32],
    listed: &mut [u8],
    edges: EdgeColumns,
    bl: &[u32],
    br: &[u32],
    i0: usize,
    j: usize,
    k0: usize,
    x: u32,
) -> Cursor
    requires { Kept time.now sample.now parent.old count.old sum.old low.old up.old ×
        Plan time.now edges.left.now edges.right.now edges.parent.now edges.child.now bl.now br.now (length parent.old) ×
        Between edges.left.now edges.right.now edges.parent.now edges.child.now bl.now br.now parent.old i0 j x (x + 1) (x + 1) (x + 1) ×
        Listed (length up.old) k0 touched.old listed.old }
    ensures { Kept time.now sample.now parent.new count.new sum.new low.new up.new ×
        Between edges.entry.left.now edges.entry.right.now edges.entry.parent.now edges.entry.child.now bl.now br.now
        parent.new result.begun j (x + 1) (x + 1) (x + 1) (x + 1) ×
        Noted (length up.old) up.old up.new touched.old listed.old touched.new
        listed.new k0 result.touched ×
        (i0 ≤ result.begun) ×
        (result.ended ≡ j) }
{
    let mut k = k0;
    for i in i0..bl.len() {
        let e = bl[i];
        if x < edges.left[e as usize] {
            return Cursor {
                begun: i,
                ended: j,
                touched: k,
            };
        }
        k = insert_up(
            time,
            sample,
            parent,
            count,
            sum,
            low,
            up,
            touched,
            listed,
            k,
            edges.child[e as usize],
            edges.parent[e as usize],
        );
    }
    Cursor {
        begun: bl.len(),
        ended: j,
        touched: k,
    }
}

// From the change before, or from the start, to the change at x: the edges that end at x leave, then those that begin at x enter.
pub fn advance(
    time: &[u32],
    sample: &[u8],
    parent: &mut [u32],
    count: &mut [u32],
    sum: &mut [u32],
    low: &mut [u32],
    up: &mut [u32],
    touched: &mut [u32],
    listed: &mut [u8],
    edges: EdgeColumns,
    bl: &[u32],
    br: &[u32],
    i: usize,
    j: usize,
    x: u32,
) -> Cursor
    requires { Swept time.now sample.now parent.old count.old sum.old low.old up.old edges.left.now edges.right.now edges.parent.now edges.child.now bl.now
        br.now i j x ×
        Listed (length up.old) 0 touched.old listed.old }
    ensures { Swept time.now sample.now parent.new count.new sum.new low.new up.new
        edges.entry.left.now edges.entry.right.now edges.entry.parent.now edges.entry.child.now bl.now br.now result.begun result.ended
        (x + 1) ×
        ((Q : List ℕ) →
        Flags sample.now Q (length parent.new) →
        TreeAt (columns edges.entry.left.now edges.entry.right.now edges.entry.parent.now edges.entry.child.now) Q (length parent.new) x
        sample.now parent.new count.new up.new) ×
        Noted (length up.old) up.old up.new touched.old listed.old touched.new
        listed.new 0 result.touched }
{
    let a = end_edges(
        time, sample, parent, count, sum, low, up, touched, listed, edges, bl, br, i, j, 0, x,
    );
    begin_edges(
        time, sample, parent, count, sum, low, up, touched, listed, edges, bl, br, i, a.ended,
        a.touched, x,
    )
}

// The key at the cursor i of b, if it is below most.
fn next_key(key: &[u32], b: &[u32], i: usize, most: u32) -> u32
    requires { Index key.now b.now (length key.now) }
    ensures { result ≡ next_key key.now b.now i most }
{
    if b.len() <= i {
        return most;
    }
    let e = b[i];
    key[e as usize].min(most)
}

// The next position where an edge begins or ends, or len.
pub fn next_change(edges: EdgeColumns, bl: &[u32], br: &[u32], i: usize, j: usize, len: u32) -> u32
    requires { Index edges.left.now bl.now (length edges.left.now) × Index edges.right.now br.now (length edges.right.now) }
    ensures { result ≡ next_change edges.entry.left.now edges.entry.right.now bl.now br.now i j len }
{
    let y = next_key(edges.left, bl, i, len);
    next_key(edges.right, br, j, y)
}
