// The runs of the sweep: open runs are cut at each change, and their fronts are the finished edges.

#![tactic(auto)]

ghost use Rattle.std.specs.Prelude.{◌≡◌, ℕ, ◌<◌, ◌≤◌, length, set};
ghost use Rattle.meaning.specs.Words.{at};
ghost use Rattle.runs.specs.Segments.{cut_at};
ghost use Rattle.runs.specs.Runs.{Room, Opened};
ghost use Rattle.runs.specs.Promises.{edge_of, Pushed, Ready, RowSettled, ChangeSettled, Bared, RowClosed, Closed};

use meaning::EdgeTable;

// 01: "ancestral segments: a left, a right and an output row". Here the row is the parent row of a run.
#[repr(C)]
#[derive(Clone, Copy, Debug, PartialEq, Eq)]
pub struct Segment {
    pub left: u32,
    pub right: u32,
    pub row: u32,
}

// 01: "A segment cut at a position inside it gives a front piece and a rest."
#[derive(Clone, Copy, Debug, PartialEq, Eq)]
pub struct Cut {
    pub front: Segment,
    pub rest: Segment,
}

impl Segment {
    // Cut at x: the front ends there and the rest begins there.
    pub fn cut(self, x: u32) -> Cut
        ensures { result ≡ cut_at self x }
    {
        Cut {
            front: Segment { right: x, ..self },
            rest: Segment { left: x, ..self },
        }
    }
}

// A column with an output parent row for each node row.
#[derive(Drop)]
pub struct RunColumn {
    pub rows: usize,
}

impl RunColumn {
    // The cell of a row that has no output parent: no table is so long. A cell is a u32, since memory is fixed.
    pub const NONE: u32 = 4294967295;
}

// Writes a finished edge to cell k where the columns have one: a sweep counts on past the cells that it is lent.
fn write(
    seg: Segment,
    child: u32,
    fl: &mut [u32],
    fr: &mut [u32],
    fp: &mut [u32],
    fc: &mut [u32],
    k: usize,
)
    requires { (length fr.old ≡ length fl.old) × (length fp.old ≡ length fl.old) × (length fc.old ≡ length fl.old) }
    ensures { (fl.new ≡ set fl.old k seg.left) ×
        (fr.new ≡ set fr.old k seg.right) ×
        (fp.new ≡ set fp.old k seg.row) ×
        (fc.new ≡ set fc.old k child) }
{
    if fl.len() <= k {
        return;
    }
    fl[k] = seg.left;
    fr[k] = seg.right;
    fp[k] = seg.row;
    fc[k] = child;
}

// One more finished edge: its parent is marked, and it is written while there are cells. The count stops at one more than the limit.
fn push(
    seg: Segment,
    child: u32,
    fl: &mut [u32],
    fr: &mut [u32],
    fp: &mut [u32],
    fc: &mut [u32],
    stood: &mut [u8],
    count: usize,
) -> usize
    requires { Room (length stood.old) (record { left = fl.old; right = fr.old; parent = fp.old; child = fc.old; stood = stood.old; count = count }) ×
        (seg.row < length stood.old) }
    ensures { Pushed (edge_of seg child)
        (record {
          left = fl.old;
          right = fr.old;
          parent = fp.old;
          child = fc.old;
          stood = stood.old;
          count = count;
        })
        (record {
          left = fl.new;
          right = fr.new;
          parent = fp.new;
          child = fc.new;
          stood = stood.new;
          count = result;
        }) }
{
    stood[seg.row as usize] = 1;
    if EdgeTable::MOST < count {
        return count;
    }
    write(seg, child, fl, fr, fp, fc, count);
    count + 1
}

// Deals with one row at x: where its output parent is another than that of its open run, the run is cut at x, its front is
// finished, and a run of the new parent begins.
fn settle_row(
    x: u32,
    len: u32,
    c: u32,
    up: &[u32],
    open_left: &mut [u32],
    open_par: &mut [u32],
    fl: &mut [u32],
    fr: &mut [u32],
    fp: &mut [u32],
    fc: &mut [u32],
    stood: &mut [u8],
    count: usize,
) -> usize
    requires { Ready up.now (record { left = open_left.old; par = open_par.old })
        (record { left = fl.old; right = fr.old; parent = fp.old; child = fc.old; stood = stood.old; count = count }) ×
        (c < length up.now) }
    ensures { RowSettled x c up.now (record { left = open_left.old; par = open_par.old })
        (record {
          left = fl.old;
          right = fr.old;
          parent = fp.old;
          child = fc.old;
          stood = stood.old;
          count = count;
        })
        (record { left = open_left.new; par = open_par.new })
        (record {
          left = fl.new;
          right = fr.new;
          parent = fp.new;
          child = fc.new;
          stood = stood.new;
          count = result;
        }) }
{
    let i = c as usize;
    let was = open_par[i];
    let par = up[i];
    if was == par {
        return count;
    }
    let left = open_left[i];
    open_left[i] = x;
    open_par[i] = par;
    if was == RunColumn::NONE {
        return count;
    }
    let open = Segment {
        left,
        right: len,
        row: was,
    };
    let cut = open.cut(x);
    push(cut.front, c, fl, fr, fp, fc, stood, count)
}

// Deals with the change at x: the first nt rows of touched are those whose output parent may be another; their marks are taken away. The
// answer is the new count.
pub fn settle(
    x: u32,
    len: u32,
    touched: &[u32],
    listed: &mut [u8],
    nt: usize,
    up: &[u32],
    open_left: &mut [u32],
    open_par: &mut [u32],
    fl: &mut [u32],
    fr: &mut [u32],
    fp: &mut [u32],
    fc: &mut [u32],
    stood: &mut [u8],
    count: usize,
) -> usize
    requires { Ready up.now (record { left = open_left.old; par = open_par.old })
        (record { left = fl.old; right = fr.old; parent = fp.old; child = fc.old; stood = stood.old; count = count }) ×
        (nt ≤ length touched.now) ×
        ((i : ℕ) → i < nt → at touched.now i < length up.now) ×
        (length listed.old ≡ length up.now) }
    ensures { ChangeSettled x up.now touched.now nt (record { left = open_left.old; par = open_par.old })
        (record {
          left = fl.old;
          right = fr.old;
          parent = fp.old;
          child = fc.old;
          stood = stood.old;
          count = count;
        })
        (record { left = open_left.new; par = open_par.new })
        (record {
          left = fl.new;
          right = fr.new;
          parent = fp.new;
          child = fc.new;
          stood = stood.new;
          count = result;
        }) ×
        Bared (length up.now) touched.now nt listed.old listed.new }
{
    let mut made = count;
    for i in 0..nt {
        let c = touched[i];
        listed[c as usize] = 0;
        made = settle_row(
            x, len, c, up, open_left, open_par, fl, fr, fp, fc, stood, made,
        );
    }
    made
}

// Finishes one row's open run at the end of the chromosome.
fn close_row(
    len: u32,
    c: u32,
    open_left: &[u32],
    open_par: &[u32],
    fl: &mut [u32],
    fr: &mut [u32],
    fp: &mut [u32],
    fc: &mut [u32],
    stood: &mut [u8],
    count: usize,
) -> usize
    requires { Opened (length open_par.now) (record { left = open_left.now; par = open_par.now }) ×
        Room (length open_par.now) (record { left = fl.old; right = fr.old; parent = fp.old; child = fc.old; stood = stood.old; count = count }) ×
        (c < length open_par.now) }
    ensures { RowClosed len c (record { left = open_left.now; par = open_par.now })
        (record {
          left = fl.old;
          right = fr.old;
          parent = fp.old;
          child = fc.old;
          stood = stood.old;
          count = count;
        })
        (record {
          left = fl.new;
          right = fr.new;
          parent = fp.new;
          child = fc.new;
          stood = stood.new;
          count = result;
        }) }
{
    let i = c as usize;
    let row = open_par[i];
    if row == RunColumn::NONE {
        return count;
    }
    let open = Segment {
        left: open_left[i],
        right: len,
        row,
    };
    push(open, c, fl, fr, fp, fc, stood, count)
}

// Finishes every open run at the end of the chromosome. The answer is the number of finished edges, or one more than the limit.
pub fn close(
    len: u32,
    open_left: &[u32],
    open_par: &[u32],
    fl: &mut [u32],
    fr: &mut [u32],
    fp: &mut [u32],
    fc: &mut [u32],
    stood: &mut [u8],
    count: usize,
) -> usize
    requires { Opened (length open_par.now) (record { left = open_left.now; par = open_par.now }) ×
        Room (length open_par.now) (record { left = fl.old; right = fr.old; parent = fp.old; child = fc.old; stood = stood.old; count = count }) ×
        (length open_par.now ≤ 4294967295) }
    ensures { Closed len (record { left = open_left.now; par = open_par.now })
        (record {
          left = fl.old;
          right = fr.old;
          parent = fp.old;
          child = fc.old;
          stood = stood.old;
          count = count;
        })
        (record {
          left = fl.new;
          right = fr.new;
          parent = fp.new;
          child = fc.new;
          stood = stood.new;
          count = result;
        }) }
{
    let mut made = count;
    for c in 0..open_par.len() {
        made = close_row(
            len, c as u32, open_left, open_par, fl, fr, fp, fc, stood, made,
        );
    }
    made
}
