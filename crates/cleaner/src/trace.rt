// The sweep, with its working columns on the stack.
ghost use Rattle.std.specs.Prelude.{◌≡◌, List, ℕ, length};
ghost use Rattle.tree.specs.TreeAt.{Flags};
ghost use Rattle.runs.specs.Runs.{Room};
ghost use Rattle.sweep.specs.Sweeping.{Done};
ghost use Rattle.cleaner.specs.Sweeping.{Sweepable};
ghost use Rattle.sweep.specs.Columns.{moves_of, store_of};
ghost use Rattle.sweep.specs.Met.{input_of};
ghost use Rattle.meaning.specs.Columns.{tables_in};

use meaning::NodeTable;
use meaning::columns::Tables;
use sweep::Tally;

// The sweep with columns of its own for the tree, the list of touched rows and the open runs: one cell for each node in each.
pub fn swept(
    len: u32,
    tables: Tables,
    sample: &[u8],
    bl: &[u32],
    br: &[u32],
    fl: &mut [u32],
    fr: &mut [u32],
    fp: &mut [u32],
    fc: &mut [u32],
    stood: &mut [u8],
    mrow: &mut [u32],
    mlow: &mut [u32],
) -> Tally
    requires { Sweepable len (input_of (tables_in tables) sample.now bl.now br.now) ×
        Room (length tables.ages.time.now) (store_of fl.old fr.old fp.old fc.old stood.old 0) ×
        (length mlow.old ≡ length mrow.old) }
    ensures { (Q : List ℕ) →
        Flags sample.now Q (length tables.entry.ages.time.now) →
        Done len (input_of (tables_in tables.entry) sample.now bl.now br.now) Q
        (store_of fl.old fr.old fp.old fc.old stood.old 0)
        (moves_of mrow.old mlow.old 0)
        (store_of fl.new fr.new fp.new fc.new stood.new result.edges)
        (moves_of mrow.new mlow.new result.mutations) }
{
    let n = tables.ages.time.len();
    let mut par = [0u32; NodeTable::MOST];
    let mut count = [0u32; NodeTable::MOST];
    let mut sum = [0u32; NodeTable::MOST];
    let mut low = [0u32; NodeTable::MOST];
    let mut up = [0u32; NodeTable::MOST];
    let mut touched = [0u32; NodeTable::MOST];
    let mut listed = [0u8; NodeTable::MOST];
    let mut begun = [0u32; NodeTable::MOST];
    let mut above = [0u32; NodeTable::MOST];
    sweep::sweep(
        len,
        tables.ages.time,
        sample,
        tables.edges.left,
        tables.edges.right,
        tables.edges.parent,
        tables.edges.child,
        bl,
        br,
        tables.sites.position,
        tables.mutations.site,
        tables.mutations.node,
        &mut par[..n],
        &mut count[..n],
        &mut sum[..n],
        &mut low[..n],
        &mut up[..n],
        &mut touched,
        &mut listed[..n],
        &mut begun[..n],
        &mut above[..n],
        fl,
        fr,
        fp,
        fc,
        stood,
        mrow,
        mlow,
    )
}
