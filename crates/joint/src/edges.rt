// The edges of a join in key order: a column of rows is merged, and each column is written by it.
ghost use Rattle.std.specs.Prelude.{◌≡◌, [], ◌++◌, ◌+◌, length, take};
ghost use Rattle.meaning.specs.Rows.{edge_table, age_table};
ghost use Rattle.meaning.specs.Columns.{edges_in};
ghost use Rattle.meaning.specs.Join.{joined};
ghost use Rattle.batches.specs.Joint.{rows_in, joint_edges, JointPut};
ghost use Rattle.batches.specs.Asked.{read_base, read_batch};
ghost use Rattle.joint.specs.Sorting.{edge_order, edges_by, WriteAsked};
ghost use Rattle.joint.specs.Asked.{EdgesJoint, EdgesAsked};

use batches::births::Both;
use meaning::EdgeTable;
use meaning::columns::EdgeColumns;

// Fills rows with the rows of base and batch in key order and parentrow with those of the batch's parents; age and ord are working columns.
fn order_edges(
    len: u32,
    nodes: Both,
    base_edges: EdgeColumns,
    edges: EdgeColumns,
    parentrow: &mut [u32],
    age: &mut [u32],
    ord: &mut [u32],
    rows: &mut [u32],
)
    requires { EdgesJoint len (read_base nodes.base.ages.time.now nodes.base.ages.birth.now (edges_in base_edges) [])
        (read_batch nodes.batch.ages.time.now nodes.batch.ages.birth.now (edges_in edges) [] [])
        × (length parentrow.old ≡ length edges.left.now)
        × (length age.old ≡ length edges.left.now)
        × (length ord.old ≡ length edges.left.now)
        × (length rows.old ≡ length base_edges.left.now + length edges.left.now) }
    ensures { (parentrow.new ≡ rows_in (nodes.entry.base.ages.birth.now ++ nodes.entry.batch.ages.birth.now) edges.entry.parent.now) × (rows.new
        ≡ edge_order
        (age_table (nodes.entry.base.ages.time.now ++ nodes.entry.batch.ages.time.now) (nodes.entry.base.ages.birth.now ++ nodes.entry.batch.ages.birth.now))
        (joint_edges (nodes.entry.base.ages.birth.now ++ nodes.entry.batch.ages.birth.now) (edges_in base_edges.entry) (edges_in edges.entry))) }
{
    batches::columns::rows_of(nodes, edges.parent, parentrow);
    crate::merge::rows_by_key(
        nodes.base.ages,
        base_edges,
        nodes.batch.ages.time,
        parentrow,
        edges,
        age,
        ord,
        rows,
    );
}

// Writes the edges of base and batch in the order rows; the front of outright has the rows of the batch's parents, that of outleft takes those of its children.
fn write_by(
    nodes: Both,
    base_edges: EdgeColumns,
    edges: EdgeColumns,
    rows: &[u32],
    outleft: &mut [u32],
    outright: &mut [u32],
    outparent: &mut [u32],
    outchild: &mut [u32],
)
    requires { WriteAsked (length nodes.base.ages.birth.now + length nodes.batch.ages.birth.now) (edges_in base_edges)
        (edge_table edges.left.now edges.right.now [] edges.child.now) rows.now
        (edge_table outleft.old outright.old outparent.old outchild.old) }
    ensures { JointPut (edges_by rows.now (edge_table
        (base_edges.entry.left.now ++ edges.entry.left.now)
        (base_edges.entry.right.now ++ edges.entry.right.now)
        (base_edges.entry.parent.now ++ take (length edges.entry.left.now) outright.old)
        (base_edges.entry.child.now ++ rows_in (nodes.entry.base.ages.birth.now ++ nodes.entry.batch.ages.birth.now) edges.entry.child.now)))
        (edge_table outleft.old outright.old outparent.old outchild.old)
        (edge_table outleft.new outright.new outparent.new outchild.new) }
{
    let m = edges.left.len();
    batches::columns::rows_of(nodes, edges.child, outleft);
    batches::columns::gather_both(base_edges.child, &outleft[..m], rows, outchild);
    batches::columns::gather_both(base_edges.parent, &outright[..m], rows, outparent);
    batches::columns::gather_both(base_edges.left, edges.left, rows, outleft);
    batches::columns::gather_both(base_edges.right, edges.right, rows, outright);
}

// Writes the edges in key order; rows is a working column with a cell for each edge, and the fronts of the columns lent for the result serve as working columns first.
fn put_edges(
    len: u32,
    nodes: Both,
    base_edges: EdgeColumns,
    edges: EdgeColumns,
    rows: &mut [u32],
    outleft: &mut [u32],
    outright: &mut [u32],
    outparent: &mut [u32],
    outchild: &mut [u32],
)
    requires { EdgesAsked len (read_base nodes.base.ages.time.now nodes.base.ages.birth.now (edges_in base_edges) [])
        (read_batch nodes.batch.ages.time.now nodes.batch.ages.birth.now (edges_in edges) [] [])
        (edge_table outleft.old outright.old outparent.old outchild.old)
        × (length rows.old ≡ length base_edges.left.now + length edges.left.now) }
    ensures { JointPut (joined len (read_base nodes.entry.base.ages.time.now nodes.entry.base.ages.birth.now (edges_in base_edges.entry) [])
        (read_batch nodes.entry.batch.ages.time.now nodes.entry.batch.ages.birth.now (edges_in edges.entry) [] [])).edges
        (edge_table outleft.old outright.old outparent.old outchild.old)
        (edge_table outleft.new outright.new outparent.new outchild.new) }
{
    let m = edges.left.len();
    order_edges(
        len,
        nodes,
        base_edges,
        edges,
        &mut outright[..m],
        &mut outparent[..m],
        &mut outchild[..m],
        rows,
    );
    write_by(
        nodes, base_edges, edges, rows, outleft, outright, outparent, outchild,
    );
}

// Writes the joined record's edges: the base's and the batch's in key order, none merged.
pub fn join_edges(
    len: u32,
    nodes: Both,
    base_edges: EdgeColumns,
    edges: EdgeColumns,
    outleft: &mut [u32],
    outright: &mut [u32],
    outparent: &mut [u32],
    outchild: &mut [u32],
)
    requires { EdgesAsked len (read_base nodes.base.ages.time.now nodes.base.ages.birth.now (edges_in base_edges) [])
        (read_batch nodes.batch.ages.time.now nodes.batch.ages.birth.now (edges_in edges) [] [])
        (edge_table outleft.old outright.old outparent.old outchild.old) }
    ensures { JointPut (joined len (read_base nodes.entry.base.ages.time.now nodes.entry.base.ages.birth.now (edges_in base_edges.entry) [])
        (read_batch nodes.entry.batch.ages.time.now nodes.entry.batch.ages.birth.now (edges_in edges.entry) [] [])).edges
        (edge_table outleft.old outright.old outparent.old outchild.old)
        (edge_table outleft.new outright.new outparent.new outchild.new) }
{
    let mut rows = [0u32; EdgeTable::MOST];
    let n = base_edges.left.len() + edges.left.len();
    put_edges(
        len,
        nodes,
        base_edges,
        edges,
        &mut rows[..n],
        outleft,
        outright,
        outparent,
        outchild,
    );
}
