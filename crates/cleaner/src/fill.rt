// The sweep's lists in the lent columns of the result: copied where the first sweep could keep them, else swept again.
ghost use Rattle.std.specs.Prelude.{◌≡◌, List, ℕ, suc, ◌≤◌, length, take};
ghost use Rattle.meaning.specs.Answer.{limits};
ghost use Rattle.tree.specs.TreeAt.{Flags};
ghost use Rattle.placing.specs.Placing.{Moves};
ghost use Rattle.runs.specs.Runs.{Store};
ghost use Rattle.sweep.specs.Sweeping.{Done};
ghost use Rattle.cleaner.specs.Sweeping.{Sweepable};
ghost use Rattle.cleaner.specs.Finishing.{Fillable, Filled};
ghost use Rattle.cleaner.specs.Out.{written_in, SameColumns, AsLong};
ghost use Rattle.cleaner.specs.Work.{fronts_in, store_in, moves_in};

use crate::edges_out::EdgesOut;
use crate::first::FirstSweep;
use meaning::columns::Tables;

// A sweep into the fronts of the lent columns, which finds no more than one edge past the limit.
fn again(
    len: u32,
    tables: Tables,
    sample: &[u8],
    bl: &[u32],
    br: &[u32],
    edges: usize,
    mutations: usize,
    stood: &mut [u8],
    out: &mut EdgesOut,
    out_site: &mut [u32],
    out_node: &mut [u32],
)
    requires { Sweepable len (fronts_in tables sample.now bl.now br.now) ×
        (length tables.ages.time.now ≤ length sample.now) ×
        (length tables.edges.left.now ≤ length bl.now) ×
        (length tables.edges.left.now ≤ length br.now) ×
        (length tables.ages.time.now ≤ length stood.old) ×
        (edges ≤ length out.old.left.now) ×
        (edges ≤ length out.old.right.now) ×
        (edges ≤ length out.old.parent.now) ×
        (edges ≤ length out.old.child.now) ×
        (mutations ≤ length out_site.old) ×
        (mutations ≤ length out_node.old) }
    ensures same { SameColumns out.old out.new }
    ensures long { AsLong out.old out.new }
    ensures filled { (Q : List ℕ) →
        edges ≤ suc limits.edges →
        Flags (take (length tables.entry.ages.time.now) sample.now) Q (length tables.entry.ages.time.now) →
        Filled len
        (fronts_in tables.entry sample.now bl.now br.now)
        Q edges mutations (written_in out.old)
        (written_in out.new) out_site.old
        out_site.new out_node.old out_node.new }
{
    let n = tables.ages.time.len();
    let e = tables.edges.left.len();
    crate::trace::swept(
        len,
        tables,
        &sample[..n],
        &bl[..e],
        &br[..e],
        &mut out.left[..edges],
        &mut out.right[..edges],
        &mut out.parent[..edges],
        &mut out.child[..edges],
        &mut stood[..n],
        &mut out_site[..mutations],
        &mut out_node[..mutations],
    );
}

// The finished edges and the mutations that move, as the sweep lists them, at the fronts of the lent columns.
pub fn fill(
    len: u32,
    tables: Tables,
    sample: &[u8],
    bl: &[u32],
    br: &[u32],
    first: FirstSweep,
    stood: &mut [u8],
    out: &mut EdgesOut,
    out_site: &mut [u32],
    out_node: &mut [u32],
)
    requires { Sweepable len (fronts_in tables sample.now bl.now br.now) ×
        (length tables.ages.time.now ≤ length sample.now) ×
        (length tables.edges.left.now ≤ length bl.now) ×
        (length tables.edges.left.now ≤ length br.now) ×
        Fillable (length tables.ages.time.now) first.made first.moved stood.old
        (written_in out.old) out_site.old
        out_node.old }
    ensures same { SameColumns out.old out.new }
    ensures long { AsLong out.old out.new }
    ensures filled { (Q : List ℕ) (D : Store) (M : Moves) →
        Flags (take (length tables.entry.ages.time.now) sample.now) Q (length tables.entry.ages.time.now) →
        Done len
        (fronts_in tables.entry sample.now bl.now br.now)
        Q D M
        (store_in first.entry (take (length tables.entry.ages.time.now) stood.old))
        (moves_in first.entry) →
        Filled len
        (fronts_in tables.entry sample.now bl.now br.now)
        Q first.entry.made first.entry.moved (written_in out.old)
        (written_in out.new) out_site.old
        out_site.new out_node.old out_node.new }
{
    if first.made <= first.edges.left.len() {
        if first.moved <= first.row.len() {
            out.write(first.edges, first.made);
            writing::copy(first.row, first.moved, out_site);
            writing::copy(first.low, first.moved, out_node);
            return;
        }
    }
    again(
        len,
        tables,
        sample,
        bl,
        br,
        first.made,
        first.moved,
        stood,
        out,
        out_site,
        out_node,
    );
}
