// Reading one allele: the marks and last states of a site's mutations by node rows, whether a row is missing there, and the state of the
// first marked row at or above a row.

#![tactic(auto)]

ghost use Rattle.std.specs.Prelude.{◌≡◌, ◌<◌, length, set};
ghost use Rattle.meaning.specs.Words.{at, rows};
ghost use Rattle.meaning.specs.Columns.{mutations_in, tables_in, lent_in};
ghost use Rattle.meaning.specs.Answer.{allele_of, done, limits};
ghost use Rattle.meaning.specs.Allele.{allele};
ghost use Rattle.order.specs.Ranks.{Ranked};
ghost use Rattle.rules.specs.Evened.{aged_in};
ghost use Rattle.checker.specs.Found.{Shaped};
ghost use Rattle.alleles.specs.Call.{read_of, read_allele};
ghost use Rattle.missing.specs.Marks.{mark_after, state_after, Naming, marks_of, states_of};
ghost use Rattle.alleles.specs.Reading.{Readable};

pub mod climb; // the first marked row at or above a row

use ancestry::edge_index::EdgeIndex;
use meaning::Refusal;
use meaning::columns::{Ages, EdgeColumns, Lent, MutationColumns, SiteColumns, Tables};

// The first marked row at or above a row, where there is one, and the end of the stretch in which the way to it is the same.
#[derive(Drop)]
pub struct Carrier {
    pub row: Option<u32>,
    pub end: u32,
}

impl Carrier {
    // How often a climb calls itself before it hands back the row to go on from.
    const CALLS: u32 = 64;
}

// Marks row v and leaves a state there, over that of an earlier mutation.
fn leave_state(has: &mut [u8], state: &mut [u8], v: u32, d: u8)
    requires { (v < length has.old) × (v < length state.old) }
    ensures { (has.new ≡ set has.old v 1) × (state.new ≡ set state.old v d) }
{
    state[v as usize] = d;
    has[v as usize] = 1;
}

// Goes over the mutations once: a node with one at site row i is marked, and its state is that of its last such row. Marks and states
// are bytes for each row, since working memory is fixed and no value tells a mark from a state.
fn leave_states(mutations: MutationColumns, i: u32, has: &mut [u8], state: &mut [u8])
    requires { Naming (mutations_in mutations) (length has.old) × (length state.old ≡ length has.old) }
    ensures { (has.new ≡ rows (mark_after
        (mutations_in mutations.entry) i has.old) (length has.old)) × (state.new ≡ rows (state_after
        (mutations_in mutations.entry) i state.old) (length state.old)) }
{
    for j in 0..mutations.site.len() {
        if mutations.site[j] == i {
            leave_state(has, state, mutations.node[j], mutations.derived[j]);
        }
    }
}

// The marks and the last states at site row i; a node with no mutation there has the mark 0 and the other state.
pub fn marks_at(mutations: MutationColumns, i: u32, other: u8, has: &mut [u8], state: &mut [u8])
    requires { Naming (mutations_in mutations) (length has.old) × (length state.old ≡ length has.old) }
    ensures { (has.new ≡ marks_of
        (mutations_in mutations.entry) i (length has.old)) × (state.new ≡ states_of
        (mutations_in mutations.entry) i other (length state.old)) }
{
    has.fill(0);
    state.fill(other);
    leave_states(mutations, i, has, state);
}

// What the fish of row u carries at site row i: a state, or that it is missing there.
pub fn row_allele(
    len: u32,
    tables: Tables,
    by_child: &[u32],
    i: u32,
    u: u32,
) -> Result<Option<u8>, Refusal>
    requires { Readable len (tables_in tables) by_child.now ×
        (i < length tables.sites.position.now) × (u < length tables.ages.time.now) }
    ensures { allele_of result
        ≡ read_of len (tables_in tables.entry) i (at tables.entry.ages.birth.now u) done }
{
    let x = tables.sites.position[i as usize];
    let other = tables.sites.ancestral[i as usize];
    let mut ends = [0u32; meaning::NodeTable::MOST];
    let mut has = [0u8; meaning::NodeTable::MOST];
    let mut state = [0u8; meaning::NodeTable::MOST];
    ancestry::index::fill_ends(tables.edges, by_child, &mut ends);
    marks_at(tables.mutations, i, other, &mut has, &mut state);
    let index = EdgeIndex {
        len,
        edges: tables.edges,
        by_child,
        ends: &ends,
    };
    if missing::is_missing(index, tables.ages.time, &has, x, u) {
        return Ok(None);
    }
    Ok(Some(climb::carried(index, tables.ages.time, &has, &state, other, x, u)))
}

// The allele of the fish b at site row i, of tables that the check does not refuse, with the orders that it leaves.
fn read_allele(
    len: u32,
    tables: Tables,
    by_child: &[u32],
    by_birth: &[u32],
    i: u32,
    b: u32,
) -> Result<Option<u8>, Refusal>
    requires { Readable len (tables_in tables) by_child.now × Ranked tables.ages.birth.now by_birth.now }
    ensures { allele_of result ≡ read_allele len (tables_in tables.entry) i b }
{
    if tables.sites.position.len() <= i as usize {
        return Err(Refusal::NoSite);
    }
    match order::ranks::row_of(tables.ages.birth, by_birth, b) {
        Some(u) => row_allele(len, tables, by_child, i, u as u32),
        None => Err(Refusal::NoBirth),
    }
}

// The tables lent, without the populations: what the check has passed is even.
pub fn evened(lent: Lent) -> Tables
    requires { Shaped (lent_in lent) }
    ensures { tables_in result ≡ aged_in lent.entry }
{
    Tables {
        ages: Ages {
            time: lent.time,
            birth: lent.birth,
        },
        edges: EdgeColumns {
            left: lent.left,
            right: lent.right,
            parent: lent.parent,
            child: lent.child,
        },
        sites: SiteColumns {
            position: lent.position,
            ancestral: lent.ancestral,
        },
        mutations: MutationColumns {
            site: lent.site,
            node: lent.node,
            derived: lent.derived,
        },
    }
}

// The check of the tables, which leaves the edges by child and the nodes by birth in lent columns, and then the allele.
fn allele_lent(
    len: u32,
    lent: Lent,
    by_child: &mut [u32],
    by_birth: &mut [u32],
    i: u32,
    b: u32,
) -> Result<Option<u8>, Refusal>
    requires { (length by_child.old ≡ 4096) × (length by_birth.old ≡ 1024) }
    ensures { allele_of result ≡ allele limits len (lent_in lent.entry) i b }
{
    let n = lent.left.len();
    let m = lent.birth.len();
    checker::check_lent(len, lent, by_child, by_birth)?;
    read_allele(len, evened(lent), &by_child[..n], &by_birth[..m], i, b)
}

// 01's allele call: the state that the fish b carries at site row i, that it is missing there, or the refusal.
pub fn allele(len: u32, lent: Lent, i: u32, b: u32) -> Result<Option<u8>, Refusal>
    ensures { allele_of result ≡ allele limits len (lent_in lent.entry) i b }
{
    let mut by_child = [0u32; meaning::EdgeTable::MOST];
    let mut by_birth = [0u32; meaning::NodeTable::MOST];
    allele_lent(len, lent, &mut by_child, &mut by_birth, i, b)
}
