// What every fish of a list carries at one site. The site's mutations are marked once; what was found for one row is told to every row on
// the way up, so that all fish of a site share one column; parents and children are looked up again only where they change.

#![tactic(auto)]

ghost use Rattle.std.specs.Prelude.{◌≡◌, ℕ, ◌<◌, ◌≤◌, length};
ghost use Rattle.meaning.specs.Words.{at};
ghost use Rattle.meaning.specs.Columns.{tables_in};
ghost use Rattle.overtaking.specs.Same.{SameKept};
ghost use Rattle.carrying.specs.Cells.{ColumnAt};
ghost use Rattle.carrying.specs.Lent.{IsPrepared, work_in, KeptAt};
ghost use Rattle.carrying.specs.Same.{SameKids};

pub mod spans; // where the rows that name a number lie
pub mod kids; // whether a row has a child, kept up to where that changes
mod marks; // the stamps and states of a site's mutations
mod carry; // the way up to a row whose state is told
mod column; // the two bytes of each row listed
mod fresh; // a new stamp, and answers thrown away

use ancestry::edge_index::EdgeIndex;
use kids::Kids;
use meaning::columns::Tables;
use overtaking::known::Kept;
use spans::SpanColumns;

// What is the same for all sites of a call: the tables, their edges by child with the ends of each row's, and where the edges of a
// parent and the mutations of a site lie.
#[derive(Clone, Copy)]
pub struct Filled<'a> {
    pub len: u32,
    pub tables: Tables<'a>,
    pub by_child: &'a [u32],
    pub ends: &'a [u32],
    pub parents: SpanColumns<'a>,
    pub muts: SpanColumns<'a>,
}

// Where the sites told so far have come to: the position last asked, and the stamp last given.
#[derive(Clone, Copy)]
pub struct Trail {
    pub last: u32,
    pub stamp: u32,
}

// The bytes of the rows listed at site row i, with a stamp that no row has yet. Kept from site to site are answers of the lookups, the
// stamps of rows with a mutation of their own and of rows whose state is told, and these states. The answers are kept from the position
// last asked, and thrown away where this site lies before it.
pub fn tell_site(
    filled: Filled,
    i: u32,
    trail: Trail,
    kept: &mut Kept,
    kids: &mut Kids,
    own: &mut [u32],
    told: &mut [u32],
    state: &mut [u8],
    rows: &[u32],
    k: usize,
    states: &mut [u8],
    flags: &mut [u8],
) -> Trail
    requires { IsPrepared filled ×
        KeptAt (tables_in filled.tables) trail (work_in kept.old kids.old own.old told.old state.old) ×
        (i < length filled.tables.sites.position.now) ×
        (k ≤ length rows.now) ×
        (k ≤ length states.old) ×
        (k ≤ length flags.old) ×
        ((j : ℕ) → j < k → at rows.now j < length filled.tables.ages.time.now) }
    ensures column { ColumnAt (tables_in filled.entry.tables) i k rows.now states.new flags.new }
    ensures kept { KeptAt (tables_in filled.entry.tables) result (work_in kept.new kids.new own.new told.new state.new) }
    ensures same { SameKept kept.old kept.new }
    ensures kids_same { SameKids kids.old kids.new }
    ensures long { length kept.new.par.now ≡ length kept.old.par.now }
    ensures kids_long { length kids.new.has.now ≡ length kids.old.has.now }
    ensures last { result.last ≡ at filled.entry.tables.sites.position.now i }
{
    let at = i as usize;
    let x = filled.tables.sites.position[at];
    fresh::forget(x, trail.last, kept, kids);
    let stamp = fresh::next_stamp(trail.stamp, own, told);
    marks::mark_site(
        filled.tables.mutations,
        i,
        filled.muts.first[at],
        filled.muts.past[at],
        stamp,
        own,
        told,
        state,
    );
    let index = EdgeIndex {
        len: filled.len,
        edges: filled.tables.edges,
        by_child: filled.by_child,
        ends: filled.ends,
    };
    column::tell_rows(
        index,
        filled.tables.ages.time,
        filled.parents,
        x,
        stamp,
        filled.tables.sites.ancestral[at],
        kept,
        kids,
        own,
        told,
        state,
        rows,
        k,
        states,
        flags,
    );
    Trail { last: x, stamp }
}
