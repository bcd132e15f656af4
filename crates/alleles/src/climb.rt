// 01's way upwards: a function that calls itself, with the parent looked up at each step. It calls itself a bounded number of times,
// and a loop goes on from where it stopped.
ghost use Rattle.std.specs.Prelude.{◌≡◌, ◌≤◌, length};
ghost use Rattle.meaning.specs.Columns.{edges_in};
ghost use Rattle.missing.specs.Climbable.{Climbable};
ghost use Rattle.alleles.specs.Reading.{CarrierAt, carried_by};
ghost use Rattle.alleles.specs.Stops.{Led};

use super::Carrier;
use ancestry::ParentColumn;
use ancestry::edge_index::EdgeIndex;
use std::ops::ControlFlow;

// Climbs from row u, with the least end met below it: to the first marked row or the top, or, when its calls are used up, to the row to
// go on from with the least end met. It calls itself; the number of older rows falls.
fn up(
    index: EdgeIndex,
    time: &[u32],
    has: &[u8],
    x: u32,
    u: u32,
    calls_left: u32,
    least: u32,
) -> ControlFlow<Carrier, (u32, u32)>
    requires { Climbable time.now (edges_in index.edges) index.ends.now has.now u × (least ≤ index.len) }
    ensures { Led time.now (edges_in index.entry.edges) index.entry.len x has.now u least result }
{
    if has[u as usize] == 1 {
        return ControlFlow::Break(Carrier {
            row: Some(u),
            end: least,
        });
    }
    let s = ancestry::lookup::parent_from(index, x, u);
    let p = s.parent;
    let end = least.min(s.end);
    if p == ParentColumn::NONE {
        return ControlFlow::Break(Carrier { row: None, end });
    }
    if calls_left == 0 {
        return ControlFlow::Continue((p, end));
    }
    up(index, time, has, x, p, calls_left - 1, end)
}

// The first marked row at or above row u at x, and how far that holds.
pub fn carrier(index: EdgeIndex, time: &[u32], has: &[u8], x: u32, u: u32) -> Carrier
    requires { Climbable time.now (edges_in index.edges) index.ends.now has.now u }
    ensures { CarrierAt time.now (edges_in index.entry.edges) index.entry.len x has.now u result }
{
    let mut v = u;
    let mut least = index.len;
    loop {
        match up(index, time, has, x, v, Carrier::CALLS, least) {
            ControlFlow::Break(r) => return r,
            ControlFlow::Continue((p, end)) => {
                v = p;
                least = end;
            }
        }
    }
}

// The state that row u carries at x, from the columns of a site; the other is the site's ancestral state.
pub fn carried(
    index: EdgeIndex,
    time: &[u32],
    has: &[u8],
    state: &[u8],
    other: u8,
    x: u32,
    u: u32,
) -> u8
    requires { Climbable time.now (edges_in index.edges) index.ends.now has.now u × (length time.now ≤ length state.now) }
    ensures { result ≡ carried_by (edges_in index.entry.edges) x has.now state.now other u }
{
    match carrier(index, time, has, x, u).row {
        Some(w) => state[w as usize],
        None => other,
    }
}
