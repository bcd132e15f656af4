// The sweep along the chromosome: from change to change the tree is brought up to date, the runs are settled and the
// mutations that have a nearest standing row are listed with it.

#![tactic(auto)]

ghost use Rattle.std.specs.Prelude.{ℕ, ◌<◌, length, List};
ghost use Rattle.tree.specs.TreeAt.{Flags};
ghost use Rattle.sweep.specs.Sweeping.{Asked, Steady, Going, Came, Done};
ghost use Rattle.meaning.specs.Rows.{Edge};
ghost use Rattle.sweep.specs.Columns.{input_of, moves_of, runs_of, source_in, state_of, store_of};

use meaning::columns::EdgeColumns;
use runs::RunColumn;

// The columns that a sweep reads: those of the nodes, the edges with their rows by left and by right, and the sites and mutations.
#[derive(Clone, Copy)]
pub struct Source<'a> {
    pub time: &'a [u32],
    pub sample: &'a [u8],
    pub edges: EdgeColumns<'a>,
    pub by_left: &'a [u32],
    pub by_right: &'a [u32],
    pub position: &'a [u32],
    pub site: &'a [u32],
    pub node: &'a [u32],
}

// How far a sweep has come: edges begun and ended, edges finished, mutations placed and those of them that move, and the position to deal with
// next.
#[derive(Clone, Copy, Debug, PartialEq, Eq)]
pub struct Reach {
    pub begun: usize,
    pub ended: usize,
    pub made: usize,
    pub placed: usize,
    pub kept: usize,
    pub next: u32,
}

// What a sweep counts: finished edges, or one more than their limit, and mutations that move.
#[derive(Clone, Copy, Debug, PartialEq, Eq)]
pub struct Tally {
    pub edges: usize,
    pub mutations: usize,
}

// Deals with the change where the sweep is: the tree is brought there, its runs are settled, and the mutations before the next
// change get their rows.
fn step(
    len: u32,
    source: Source,
    par: &mut [u32],
    count: &mut [u32],
    sum: &mut [u32],
    low: &mut [u32],
    up: &mut [u32],
    touched: &mut [u32],
    listed: &mut [u8],
    open_left: &mut [u32],
    open_par: &mut [u32],
    fl: &mut [u32],
    fr: &mut [u32],
    fp: &mut [u32],
    fc: &mut [u32],
    stood: &mut [u8],
    mrow: &mut [u32],
    mlow: &mut [u32],
    from: Reach,
) -> Reach
    requires { Steady len
        (source_in source)
        (length touched.old) listed.old from.next
        (state_of par.old count.old sum.old low.old up.old (runs_of open_left.old open_par.old)
        (store_of fl.old fr.old fp.old fc.old stood.old from.made) (moves_of mrow.old mlow.old from.kept) from.begun
        from.ended from.placed) ×
        (from.next < len) }
    ensures { Came len
        (source_in source.entry)
        (length touched.old) listed.old from.next
        (state_of par.old count.old sum.old low.old up.old
        (runs_of open_left.old open_par.old)
        (store_of fl.old fr.old fp.old fc.old stood.old from.made)
        (moves_of mrow.old mlow.old from.kept) from.begun from.ended from.placed)
        listed.new result.next
        (state_of par.new count.new sum.new low.new up.new
        (runs_of open_left.new open_par.new)
        (store_of fl.new fr.new fp.new fc.new stood.new result.made)
        (moves_of mrow.new mlow.new result.kept) result.begun result.ended result.placed) ×
        (from.next < result.next) }
{
    let x = from.next;
    let c = tree::advance(
        source.time,
        source.sample,
        par,
        count,
        sum,
        low,
        up,
        touched,
        listed,
        source.edges,
        source.by_left,
        source.by_right,
        from.begun,
        from.ended,
        x,
    );
    let made = runs::settle(
        x, len, touched, listed, c.touched, up, open_left, open_par, fl, fr, fp, fc, stood,
        from.made,
    );
    let next = tree::next_change(
        source.edges,
        source.by_left,
        source.by_right,
        c.begun,
        c.ended,
        len,
    );
    let p = placing::place(
        source.time,
        source.sample,
        par,
        count,
        sum,
        low,
        source.position,
        source.site,
        source.node,
        mrow,
        mlow,
        from.placed,
        from.kept,
        next,
    );
    Reach {
        begun: c.begun,
        ended: c.ended,
        made,
        placed: p.placed,
        kept: p.kept,
        next,
    }
}

// From the start of the chromosome to its end, where the open runs are finished.
fn walk(
    len: u32,
    source: Source,
    par: &mut [u32],
    count: &mut [u32],
    sum: &mut [u32],
    low: &mut [u32],
    up: &mut [u32],
    touched: &mut [u32],
    listed: &mut [u8],
    open_left: &mut [u32],
    open_par: &mut [u32],
    fl: &mut [u32],
    fr: &mut [u32],
    fp: &mut [u32],
    fc: &mut [u32],
    stood: &mut [u8],
    mrow: &mut [u32],
    mlow: &mut [u32],
) -> Tally
    requires { Steady len
        (source_in source)
        (length touched.old) listed.old 0
        (state_of par.old count.old sum.old low.old up.old (runs_of open_left.old open_par.old)
        (store_of fl.old fr.old fp.old fc.old stood.old 0) (moves_of mrow.old mlow.old 0) 0 0 0) }
    ensures { (Q : List ℕ) →
        Flags source.entry.sample.now Q (length source.entry.time.now) →
        (F : List Edge) →
        Going len
        (source_in source.entry)
        0 Q F
        (state_of par.old count.old sum.old low.old up.old
        (runs_of open_left.old open_par.old)
        (store_of fl.old fr.old fp.old fc.old stood.old 0)
        (moves_of mrow.old mlow.old 0) 0 0 0) →
        Done len
        (source_in source.entry)
        Q (store_of fl.old fr.old fp.old fc.old stood.old 0)
        (moves_of mrow.old mlow.old 0)
        (store_of fl.new fr.new fp.new fc.new stood.new result.edges)
        (moves_of mrow.new mlow.new result.mutations) }
{
    let mut at = Reach {
        begun: 0,
        ended: 0,
        made: 0,
        placed: 0,
        kept: 0,
        next: 0,
    };
    // The sweep counts nothing: it goes from change to change.
    while at.next < len {
        let reached = step(
            len, source, par, count, sum, low, up, touched, listed, open_left, open_par, fl, fr,
            fp, fc, stood, mrow, mlow, at,
        );
        at = reached;
    }
    let edges = runs::close(len, open_left, open_par, fl, fr, fp, fc, stood, at.made);
    Tally {
        edges,
        mutations: at.kept,
    }
}

// Sweeps along the chromosome: the finished edges of all output parents, and the mutations that move with their nearest standing rows, each
// written while there are cells, and counted in any case. The columns come apart, as the caller has them: their lifetimes are one.
pub fn sweep<'a>(
    len: u32,
    time: &'a [u32],
    sample: &'a [u8],
    left: &'a [u32],
    right: &'a [u32],
    parent: &'a [u32],
    child: &'a [u32],
    bl: &'a [u32],
    br: &'a [u32],
    position: &'a [u32],
    site: &'a [u32],
    node: &'a [u32],
    par: &mut [u32],
    count: &mut [u32],
    sum: &mut [u32],
    low: &mut [u32],
    up: &mut [u32],
    touched: &mut [u32],
    listed: &mut [u8],
    open_left: &mut [u32],
    open_par: &mut [u32],
    fl: &mut [u32],
    fr: &mut [u32],
    fp: &mut [u32],
    fc: &mut [u32],
    stood: &mut [u8],
    mrow: &mut [u32],
    mlow: &mut [u32],
) -> Tally
    requires { Asked len
        (input_of time.now sample.now left.now right.now parent.now child.now bl.now br.now position.now site.now node.now)
        (length touched.old) listed.old
        (state_of par.old count.old sum.old low.old up.old (runs_of open_left.old open_par.old)
        (store_of fl.old fr.old fp.old fc.old stood.old 0) (moves_of mrow.old mlow.old 0) 0 0 0) }
    ensures { (Q : List ℕ) →
        Flags sample.now Q (length time.now) →
        Done len
        (input_of time.now sample.now left.now right.now parent.now child.now
        bl.now br.now position.now site.now node.now)
        Q (store_of fl.old fr.old fp.old fc.old stood.old 0)
        (moves_of mrow.old mlow.old 0)
        (store_of fl.new fr.new fp.new fc.new stood.new result.edges)
        (moves_of mrow.new mlow.new result.mutations) }
{
    tree::start(time, sample, par, count, sum, low, up);
    open_left.fill(0);
    open_par.fill(RunColumn::NONE);
    listed.fill(0);
    stood.fill(0);
    let edges = EdgeColumns {
        left,
        right,
        parent,
        child,
    };
    let source = Source {
        time,
        sample,
        edges,
        by_left: bl,
        by_right: br,
        position,
        site,
        node,
    };
    walk(
        len, source, par, count, sum, low, up, touched, listed, open_left, open_par, fl, fr, fp,
        fc, stood, mrow, mlow,
    )
}
