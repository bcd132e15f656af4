// The lent columns that take the edges of the result.
ghost use Rattle.std.specs.Prelude.{◌≡◌, ◌≤◌, List, ℕ, map, length, take};
ghost use Rattle.meaning.specs.Words.{at, rows};
ghost use Rattle.meaning.specs.Answer.{put};
ghost use Rattle.bridge.specs.Columns.{Apart};
ghost use Rattle.order.specs.Order.{Inside, SortedFrom, by_keys};
ghost use Rattle.order.specs.Ranks.{Ranked};
ghost use Rattle.keys.specs.Keys.{InTurns};
ghost use Rattle.writing.specs.Renamed.{renamed};
ghost use Rattle.cleaner.specs.Out.{SameColumns, AsLong};

use meaning::columns::{Ages, EdgeColumns};

// The four columns of edges, as a caller lends them to be written: they may differ in length.
#[derive(Drop)]
pub struct EdgesOut<'a> {
    pub left: &'a mut [u32],
    pub right: &'a mut [u32],
    pub parent: &'a mut [u32],
    pub child: &'a mut [u32],
}

// The first k cells of a column by an order of its rows, in place; spare is a working column.
fn reorder(col: &mut [u32], order: &[u32], k: usize, spare: &mut [u32])
    requires { (k ≤ length order.now) × (k ≤ length col.old) × (k ≤ length spare.old) × Inside k (take k order.now) }
    ensures { col.new ≡ put (map (at col.old) (take k order.now)) col.old }
{
    writing::gather(col, order, k, spare);
    writing::copy(spare, k, col);
}

impl EdgesOut<'_> {
    // The first k edges, to the fronts.
    pub fn write(&mut self, edges: EdgeColumns, k: usize)
        requires { (k ≤ length edges.left.now) ×
            (k ≤ length self.old.left.now) ×
            (k ≤ length self.old.right.now) ×
            (k ≤ length self.old.parent.now) ×
            (k ≤ length self.old.child.now) }
        ensures same { SameColumns self.old self.new }
        ensures long { AsLong self.old self.new }
        ensures copied { (self.new.left.now ≡ put (take k edges.entry.left.now) self.old.left.now) ×
            (self.new.right.now ≡ put (take k edges.entry.right.now) self.old.right.now) ×
            (self.new.parent.now ≡ put (take k edges.entry.parent.now) self.old.parent.now) ×
            (self.new.child.now ≡ put (take k edges.entry.child.now) self.old.child.now) }
    {
        writing::copy(edges.left, k, self.left);
        writing::copy(edges.right, k, self.right);
        writing::copy(edges.parent, k, self.parent);
        writing::copy(edges.child, k, self.child);
    }

    // The first k edges' rows in the order of their keys; spare is a working column.
    pub fn order(
        &self,
        ages: Ages,
        by_birth: &[u32],
        k: usize,
        order: &mut [u32],
        spare: &mut [u32],
    )
        requires { (length ages.time.now ≤ 1024) ×
            Ranked ages.birth.now by_birth.now ×
            Apart ages.birth.now ×
            (k ≤ length self.now.parent.now) ×
            (k ≤ length self.now.child.now) ×
            (k ≤ length order.old) ×
            (k ≤ length spare.old) ×
            (k ≤ 4294967295) ×
            Inside (length ages.time.now) (take k self.now.parent.now) ×
            Inside (length ages.time.now) (take k self.now.child.now) }
        ensures { (left : List ℕ) →
            k ≤ length left →
            InTurns left self.now.child.now k →
            SortedFrom
            (by_keys (map (at ages.entry.time.now) (take k self.now.parent.now)) (map (at ages.entry.birth.now) (take k self.now.parent.now))
            (map (at ages.entry.birth.now) (take k self.now.child.now)) (take k left))
            (rows (λ i. i) k) (take k order.new) }
    {
        keys::order_edges(
            ages.time,
            ages.birth,
            by_birth,
            self.parent,
            self.child,
            k,
            order,
            spare,
        );
    }

    // The first k edges by an order of their rows, in place; spare is a working column.
    fn reorder(&mut self, order: &[u32], k: usize, spare: &mut [u32])
        requires { (k ≤ length order.now) ×
            (k ≤ length spare.old) ×
            (k ≤ length self.old.left.now) ×
            (k ≤ length self.old.right.now) ×
            (k ≤ length self.old.parent.now) ×
            (k ≤ length self.old.child.now) ×
            Inside k (take k order.now) }
        ensures same { SameColumns self.old self.new }
        ensures long { AsLong self.old self.new }
        ensures ordered { (self.new.left.now ≡ put (map (at self.old.left.now) (take k order.now)) self.old.left.now) ×
            (self.new.right.now ≡ put (map (at self.old.right.now) (take k order.now)) self.old.right.now) ×
            (self.new.parent.now ≡ put (map (at self.old.parent.now) (take k order.now)) self.old.parent.now) ×
            (self.new.child.now ≡ put (map (at self.old.child.now) (take k order.now)) self.old.child.now) }
    {
        reorder(self.left, order, k, spare);
        reorder(self.right, order, k, spare);
        reorder(self.parent, order, k, spare);
        reorder(self.child, order, k, spare);
    }

    // The first k edges by an order of their rows, and with the places of their parents and children; spare is a working column.
    pub fn finish(&mut self, places: &[u32], order: &[u32], k: usize, spare: &mut [u32])
        requires { (k ≤ length order.now) ×
            (k ≤ length spare.old) ×
            (k ≤ length self.old.left.now) ×
            (k ≤ length self.old.right.now) ×
            (k ≤ length self.old.parent.now) ×
            (k ≤ length self.old.child.now) ×
            Inside k (take k order.now) }
        ensures same { SameColumns self.old self.new }
        ensures long { AsLong self.old self.new }
        ensures finished { (self.new.left.now ≡ put (map (at self.old.left.now) (take k order.now)) self.old.left.now) ×
            (self.new.right.now ≡ put (map (at self.old.right.now) (take k order.now)) self.old.right.now) ×
            (self.new.parent.now ≡ put (map (λ i. renamed places.now (at self.old.parent.now i)) (take k order.now)) self.old.parent.now) ×
            (self.new.child.now ≡ put (map (λ i. renamed places.now (at self.old.child.now i)) (take k order.now)) self.old.child.now) }
    {
        self.reorder(order, k, spare);
        writing::rename(places, self.parent, k);
        writing::rename(places, self.child, k);
    }
}
