// The state that a row carries: that of the first row on its way up whose state is told, or the ancestral one; it is then told to every
// row on that way. A climb from row to row counts nothing, so it is a while.
ghost use Rattle.std.specs.Prelude.{◌≡◌, ◌<◌, length};
ghost use Rattle.meaning.specs.Columns.{edges_in};
ghost use Rattle.overtaking.specs.Known.{Known};
ghost use Rattle.overtaking.specs.Same.{SameKept};
ghost use Rattle.carrying.specs.Told.{Upwards, Found, ToldUp, Carried};

use ancestry::ParentColumn;
use ancestry::edge_index::EdgeIndex;
use overtaking::known::Kept;

// The state of the first row told at or above row u0, or the other where there is none.
fn find(
    index: EdgeIndex,
    time: &[u32],
    x: u32,
    t: u32,
    other: u8,
    kept: &mut Kept,
    told: &[u32],
    state: &[u8],
    u0: u32,
) -> u8
    requires { Upwards time.now (edges_in index.edges) index.ends.now kept.old.par.now told.now state.now ×
        Known (edges_in index.edges) x kept.old.par.now kept.old.until.now ×
        (u0 < length time.now) }
    ensures found { Found (edges_in index.entry.edges) x (length time.now) other t told.now state.now u0 result }
    ensures known { Known (edges_in index.entry.edges) x kept.new.par.now kept.new.until.now }
    ensures same { SameKept kept.old kept.new }
    ensures long { length kept.new.par.now ≡ length kept.old.par.now }
{
    let mut u = u0;
    while told[u as usize] != t {
        let p = kept.parent(index, x, u);
        if p == ParentColumn::NONE {
            return other;
        }
        u = p;
    }
    state[u as usize]
}

// Tells the state s to row u0 and the rows above it, up to the first one told.
fn tell_up(
    index: EdgeIndex,
    time: &[u32],
    x: u32,
    t: u32,
    s: u8,
    kept: &mut Kept,
    told: &mut [u32],
    state: &mut [u8],
    u0: u32,
)
    requires { Upwards time.now (edges_in index.edges) index.ends.now kept.old.par.now told.old state.old ×
        Known (edges_in index.edges) x kept.old.par.now kept.old.until.now ×
        (u0 < length time.now) }
    ensures told { ToldUp (edges_in index.entry.edges) x (length time.now) t s u0 told.old state.old told.new state.new }
    ensures known { Known (edges_in index.entry.edges) x kept.new.par.now kept.new.until.now }
    ensures same { SameKept kept.old kept.new }
    ensures long { length kept.new.par.now ≡ length kept.old.par.now }
{
    let mut u = u0;
    while told[u as usize] != t {
        told[u as usize] = t;
        state[u as usize] = s;
        let p = kept.parent(index, x, u);
        if p == ParentColumn::NONE {
            return;
        }
        u = p;
    }
}

// The state that row u carries, told on the way to it.
pub fn carried(
    index: EdgeIndex,
    time: &[u32],
    x: u32,
    t: u32,
    other: u8,
    kept: &mut Kept,
    told: &mut [u32],
    state: &mut [u8],
    u: u32,
) -> u8
    requires { Upwards time.now (edges_in index.edges) index.ends.now kept.old.par.now told.old state.old ×
        Known (edges_in index.edges) x kept.old.par.now kept.old.until.now ×
        (u < length time.now) }
    ensures carried { Carried (edges_in index.entry.edges) x (length time.now) other t u told.old state.old result told.new state.new }
    ensures known { Known (edges_in index.entry.edges) x kept.new.par.now kept.new.until.now }
    ensures same { SameKept kept.old kept.new }
    ensures long { length kept.new.par.now ≡ length kept.old.par.now }
{
    let s = find(index, time, x, t, other, kept, told, state, u);
    tell_up(index, time, x, t, s, kept, told, state, u);
    s
}
