// The edges with their order by child and the ends of each row's edges: all that a parent is looked up in.
ghost use Rattle.std.specs.Prelude.{ℕ};
ghost use Rattle.meaning.specs.Columns.{edges_in};
ghost use Rattle.ancestry.specs.Index.{Indexed};
ghost use Rattle.ancestry.specs.Single.{indexed_once};

use meaning::columns::EdgeColumns;

// The edges of a chromosome of length len.
#[derive(Clone, Copy)]
pub struct EdgeIndex<'a> {
    pub len: u32,
    pub edges: EdgeColumns<'a>,
    pub by_child: &'a [u32],
    pub ends: &'a [u32],
    pub ghost indexed: { Indexed (edges_in edges) len by_child.now ends.now } by { indexed_once (edges_in edges) len by_child.now ends.now },
}
