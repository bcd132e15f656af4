// 01's way up to the nearest standing row: a function that calls itself a bounded number of times, and a loop that goes on from where it
// stopped. Where a row begins or ceases to stand, the live rows on that way lead down to another row.
ghost use Rattle.mend.specs.Right.{stands};
ghost use Rattle.mend.specs.Line.{par_of, opt, Over};
ghost use Rattle.mend.specs.Labels.{Labelling, Relabelled, Led};

use super::{NONE, stands_at};
use std::ops::ControlFlow;

// How often a relabelling calls itself before it hands back the row to go on from.
const CALLS: u32 = 64;

// How many rows more one call deals with.
const ROWS: u32 = 15;

// q gets w. A relabelling breaks with the nearest standing row above or none, and goes on from a row when its rows or calls are used up.
fn relabel_row(
    time: &[u32],
    sample: &[u8],
    parent: &[u32],
    count: &[u32],
    low: &mut [u32],
    q: u32,
    w: u32,
) -> ControlFlow<u32, u32>
    requires { Labelling time.now sample.now parent.now count.now low.old q }
    ensures { Led time.now parent.now (stands sample.now count.now) w low.old low.new q result }
{
    low[q as usize] = w;
    let o = parent[q as usize];
    if o == NONE || stands_at(sample, count, o) {
        return ControlFlow::Break(o);
    }
    ControlFlow::Continue(o)
}

// The same for q and some rows above it.
fn relabel_rows(
    time: &[u32],
    sample: &[u8],
    parent: &[u32],
    count: &[u32],
    low: &mut [u32],
    q: u32,
    w: u32,
) -> ControlFlow<u32, u32>
    requires { Labelling time.now sample.now parent.now count.now low.old q }
    ensures { Led time.now parent.now (stands sample.now count.now) w low.old low.new q result }
{
    let mut v = relabel_row(time, sample, parent, count, low, q, w)?;
    for _ in 0..ROWS {
        v = relabel_row(time, sample, parent, count, low, v, w)?;
    }
    ControlFlow::Continue(v)
}

// The nearest standing row above q; q and the rows on the way to it get w. It calls itself; the number of older rows falls.
fn relabel_up(
    time: &[u32],
    sample: &[u8],
    parent: &[u32],
    count: &[u32],
    low: &mut [u32],
    q: u32,
    w: u32,
    calls_left: u32,
) -> ControlFlow<u32, u32>
    requires { Labelling time.now sample.now parent.now count.now low.old q }
    ensures { Led time.now parent.now (stands sample.now count.now) w low.old low.new q result }
{
    let o = relabel_rows(time, sample, parent, count, low, q, w)?;
    if calls_left == 0 {
        return ControlFlow::Continue(o);
    }
    relabel_up(time, sample, parent, count, low, o, w, calls_left - 1)
}

// The same, however far that row is.
pub fn relabel(
    time: &[u32],
    sample: &[u8],
    parent: &[u32],
    count: &[u32],
    low: &mut [u32],
    q: u32,
    w: u32,
) -> u32
    requires { Labelling time.now sample.now parent.now count.now low.old q }
    ensures { Relabelled parent.now (stands sample.now count.now) w low.old low.new q × Over (par_of parent.now) (stands sample.now count.now) (opt result) q }
{
    let mut v = q;
    // A climb counts nothing: it goes on from the row that was come to.
    loop {
        match relabel_up(time, sample, parent, count, low, v, w, CALLS) {
            ControlFlow::Break(r) => return r,
            ControlFlow::Continue(o) => v = o,
        }
    }
}
