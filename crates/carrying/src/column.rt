// The two bytes of each row listed, at one site: whether the row is missing there, and else the state that it carries.
ghost use Rattle.std.specs.Prelude.{◌≡◌, ℕ, ◌<◌, ◌≤◌, eqb, length};
ghost use Rattle.meaning.specs.Words.{at};
ghost use Rattle.meaning.specs.Columns.{edges_in};
ghost use Rattle.overtaking.specs.Known.{Known};
ghost use Rattle.overtaking.specs.Same.{SameKept};
ghost use Rattle.carrying.specs.Kids.{KidsKnown};
ghost use Rattle.carrying.specs.Same.{SameKids};
ghost use Rattle.carrying.specs.Column.{missing_by, Asking, Ready, RowTold, RowsTold};

use crate::kids::Kids;
use crate::spans::SpanColumns;
use ancestry::ParentColumn;
use ancestry::edge_index::EdgeIndex;
use overtaking::known::Kept;

// Whether row u is missing at x: it has no mutation of its own, no parent and no child there.
fn is_missing(
    index: EdgeIndex,
    time: &[u32],
    parents: SpanColumns,
    x: u32,
    t: u32,
    kept: &mut Kept,
    kids: &mut Kids,
    own: &[u32],
    u: u32,
) -> bool
    requires { Asking time.now (edges_in index.edges) index.ends.now parents.first.now parents.past.now
        kept.old.par.now kids.old.has.now own.now ×
        Known (edges_in index.edges) x kept.old.par.now kept.old.until.now ×
        KidsKnown (edges_in index.edges) x kids.old.has.now kids.old.until.now ×
        (u < length time.now) }
    ensures answer { result ≡ missing_by (edges_in index.entry.edges) x (eqb (at own.now u) t) u }
    ensures known { Known (edges_in index.entry.edges) x kept.new.par.now kept.new.until.now }
    ensures kids { KidsKnown (edges_in index.entry.edges) x kids.new.has.now kids.new.until.now }
    ensures same { SameKept kept.old kept.new }
    ensures kids_same { SameKids kids.old kids.new }
    ensures long { length kept.new.par.now ≡ length kept.old.par.now }
    ensures kids_long { length kids.new.has.now ≡ length kids.old.has.now }
{
    if own[u as usize] == t {
        return false;
    }
    let p = kept.parent(index, x, u);
    if p != ParentColumn::NONE {
        return false;
    }
    let below = kids.child(index.len, index.edges, parents, x, u);
    !below
}

// What row u carries, or none where it is missing.
fn tell_row(
    index: EdgeIndex,
    time: &[u32],
    parents: SpanColumns,
    x: u32,
    t: u32,
    other: u8,
    kept: &mut Kept,
    kids: &mut Kids,
    own: &[u32],
    told: &mut [u32],
    state: &mut [u8],
    u: u32,
) -> Option<u8>
    requires { Ready time.now (edges_in index.edges) index.ends.now parents.first.now parents.past.now
        kept.old.par.now kids.old.has.now own.now told.old state.old ×
        Known (edges_in index.edges) x kept.old.par.now kept.old.until.now ×
        KidsKnown (edges_in index.edges) x kids.old.has.now kids.old.until.now ×
        (u < length time.now) }
    ensures row { RowTold (edges_in index.entry.edges) x (length time.now) other t own.now told.old state.old u
        result told.new state.new }
    ensures known { Known (edges_in index.entry.edges) x kept.new.par.now kept.new.until.now }
    ensures kids { KidsKnown (edges_in index.entry.edges) x kids.new.has.now kids.new.until.now }
    ensures same { SameKept kept.old kept.new }
    ensures kids_same { SameKids kids.old kids.new }
    ensures long { length kept.new.par.now ≡ length kept.old.par.now }
    ensures kids_long { length kids.new.has.now ≡ length kids.old.has.now }
{
    if is_missing(index, time, parents, x, t, kept, kids, own, u) {
        return None;
    }
    Some(crate::carry::carried(index, time, x, t, other, kept, told, state, u))
}

// The two bytes of each of the first k rows listed: the state, and 1 where the row is missing.
pub fn tell_rows(
    index: EdgeIndex,
    time: &[u32],
    parents: SpanColumns,
    x: u32,
    t: u32,
    other: u8,
    kept: &mut Kept,
    kids: &mut Kids,
    own: &[u32],
    told: &mut [u32],
    state: &mut [u8],
    rows: &[u32],
    k: usize,
    states: &mut [u8],
    flags: &mut [u8],
)
    requires { Ready time.now (edges_in index.edges) index.ends.now parents.first.now parents.past.now
        kept.old.par.now kids.old.has.now own.now told.old state.old ×
        Known (edges_in index.edges) x kept.old.par.now kept.old.until.now ×
        KidsKnown (edges_in index.edges) x kids.old.has.now kids.old.until.now ×
        (k ≤ length rows.now) ×
        (k ≤ length states.old) ×
        (k ≤ length flags.old) ×
        ((j : ℕ) → j < k → at rows.now j < length time.now) }
    ensures rows { RowsTold (edges_in index.entry.edges) x (length time.now) other t own.now told.old state.old rows.now k
        states.new flags.new told.new state.new }
    ensures known { Known (edges_in index.entry.edges) x kept.new.par.now kept.new.until.now }
    ensures kids { KidsKnown (edges_in index.entry.edges) x kids.new.has.now kids.new.until.now }
    ensures same { SameKept kept.old kept.new }
    ensures kids_same { SameKids kids.old kids.new }
    ensures long { length kept.new.par.now ≡ length kept.old.par.now }
    ensures kids_long { length kids.new.has.now ≡ length kids.old.has.now }
{
    for j in 0..k {
        let carried = tell_row(
            index, time, parents, x, t, other, kept, kids, own, told, state, rows[j],
        );
        states[j] = carried.unwrap_or(0);
        flags[j] = carried.is_none() as u8;
    }
}
