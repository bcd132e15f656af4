// Columns written to the front of lent ones, and the room that they find.

#![tactic(auto)]

ghost use Rattle.std.specs.Prelude.{◌≡◌, get_or, map, ◌≤◌, ltb, length, take};
ghost use Rattle.meaning.specs.Words.{or};
ghost use Rattle.meaning.specs.Answer.{put, checked_of};
ghost use Rattle.order.specs.Order.{Inside};
ghost use Rattle.writing.specs.Renamed.{renamed};
ghost use Rattle.writing.specs.Room.{room_answer};

use meaning::{EdgeTable, MapTable, MutationTable, NodeTable, Refusal, SiteTable};
use order::wide;

pub mod within; // within.rt: the room with the block of a call from C

// The rows of a result in tables 1 to 4, and in the node map.
#[derive(Clone, Copy)]
pub struct Needs {
    pub nodes: usize,
    pub edges: usize,
    pub sites: usize,
    pub mutations: usize,
    pub rows: usize,
}

// The lengths of the columns that are lent for a result.
#[derive(Clone, Copy)]
pub struct Lengths {
    pub time: usize,
    pub birth: usize,
    pub population: usize,
    pub left: usize,
    pub right: usize,
    pub parent: usize,
    pub child: usize,
    pub position: usize,
    pub ancestral: usize,
    pub site: usize,
    pub node: usize,
    pub derived: usize,
    pub nodemap: usize,
}

// The cells of src at the first k rows, to the front of out.
pub fn gather<T: Copy>(src: &[T], rows: &[u32], k: usize, out: &mut [T])
    requires { (k ≤ length rows.now) × (k ≤ length out.old) × Inside (length src.now) (take k rows.now) }
    ensures { (other : T) → out.new ≡ put (map (λ r. get_or src.now r other) (take k rows.now)) out.old }
{
    for (i, row) in rows[..k].iter().enumerate() {
        let r = wide(*row);
        out[i] = src[r];
    }
}

// The first k cells of a column, to the front of out.
pub fn copy<T: Copy>(src: &[T], k: usize, out: &mut [T])
    requires { (k ≤ length src.now) × (k ≤ length out.old) }
    ensures { out.new ≡ put (take k src.now) out.old }
{
    order::copy(&src[..k], &mut out[..k]);
}

// Each of the first k cells that is a row becomes what names has for it; a cell that is none stays.
pub fn rename(names: &[u32], col: &mut [u32], k: usize)
    requires { k ≤ length col.old }
    ensures { col.new ≡ put (map (renamed names.now) (take k col.old)) col.old }
{
    for i in 0..k {
        let v = wide(col[i]);
        if v < names.len() {
            col[i] = names[v];
        }
    }
}

// Whether so many rows pass the limit, or the room of a table whose shortest column has so many cells.
fn lacks(most: usize, need: usize, room: usize) -> bool
    ensures { result ≡ or (ltb most need) (ltb room need) }
{
    most < need || room < need
}

// 13: the lowest table whose rows pass its limit or find no room.
pub fn check_room(need: Needs, lent: Lengths) -> Result<(), Refusal>
    ensures { checked_of result ≡ room_answer need lent }
{
    let nodes = lent.time.min(lent.birth.min(lent.population));
    if lacks(NodeTable::MOST, need.nodes, nodes) {
        return Err(Refusal::NoRoom(NodeTable::NUMBER));
    }
    let edges = lent.left.min(lent.right.min(lent.parent.min(lent.child)));
    if lacks(EdgeTable::MOST, need.edges, edges) {
        return Err(Refusal::NoRoom(EdgeTable::NUMBER));
    }
    let sites = lent.position.min(lent.ancestral);
    if lacks(SiteTable::MOST, need.sites, sites) {
        return Err(Refusal::NoRoom(SiteTable::NUMBER));
    }
    let mutations = lent.site.min(lent.node.min(lent.derived));
    if lacks(MutationTable::MOST, need.mutations, mutations) {
        return Err(Refusal::NoRoom(MutationTable::NUMBER));
    }
    if lacks(NodeTable::MOST, need.rows, lent.nodemap) {
        return Err(Refusal::NoRoom(MapTable::NUMBER));
    }
    Ok(())
}
