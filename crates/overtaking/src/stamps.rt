// Stamping upwards, and one mutation after another in the order of their sites: the ancestors of a site's earlier mutations have the
// site's stamp as far up as a later one can be, so a mutation's own stamp tells whether it is above one of them.
ghost use Rattle.std.specs.Prelude.{◌≡◌, ℕ, ◌+◌, ◌<◌, length};
ghost use Rattle.meaning.specs.Words.{at, lowest_row};
ghost use Rattle.meaning.specs.Columns.{edges_in};
ghost use Rattle.bridge.specs.Parents.{parent_row};
ghost use Rattle.overtaking.specs.Known.{Known, Keeping};
ghost use Rattle.overtaking.specs.Same.{SameKept};
ghost use Rattle.overtaking.specs.Stamps.{Stampable, StampedUp};
ghost use Rattle.overtaking.specs.Overtaken.{overtaken, overtaken_row, Working, Going, Gone};

use crate::known::Kept;
use crate::sites::BySite;
use ancestry::ParentColumn;
use ancestry::edge_index::EdgeIndex;

// Stamps the proper ancestors of row u0 at x that are no older than the bound, and perhaps one more. What is stamped is closed upwards, so
// the first stamp met ends the way. A climb from row to row counts nothing, so it is a while.
fn stamp_up(
    index: EdgeIndex,
    time: &[u32],
    x: u32,
    t: u32,
    bound: u32,
    kept: &mut Kept,
    stamps: &mut [u32],
    u0: u32,
)
    requires { Stampable time.now (edges_in index.edges) stamps.old u0 ×
        Keeping (length time.now) index.ends.now kept.old.par.now ×
        Known (edges_in index.edges) x kept.old.par.now kept.old.until.now }
    ensures stamped { StampedUp (parent_row (edges_in index.entry.edges) x) (at time.now) t bound u0 stamps.old stamps.new }
    ensures known { Known (edges_in index.entry.edges) x kept.new.par.now kept.new.until.now }
    ensures same { SameKept kept.old kept.new }
    ensures long { length kept.new.par.now ≡ length kept.old.par.now }
{
    let mut u = u0;
    while time[u as usize] < bound {
        let p = kept.parent(index, x, u);
        if p == ParentColumn::NONE || stamps[p as usize] == t {
            return;
        }
        stamps[p as usize] = t;
        u = p;
    }
}

// Stamps the ancestors of mutation row i's node, unless no other mutation of its site follows.
fn stamp_above(index: EdgeIndex, mutations: BySite, i: usize, kept: &mut Kept, stamps: &mut [u32])
    requires { Working mutations.time.now (edges_in index.edges) index.ends.now kept.old.par.now stamps.old ×
        (i < length mutations.site.now) ×
        Going mutations.time.now (edges_in index.edges) mutations.position.now mutations.site.now mutations.node.now i
        kept.old.par.now kept.old.until.now stamps.old }
    ensures gone { Gone mutations.entry.time.now (edges_in index.entry.edges) mutations.entry.position.now mutations.entry.site.now
        mutations.entry.node.now i kept.new.par.now kept.new.until.now stamps.new }
    ensures same { SameKept kept.old kept.new }
    ensures long { length kept.new.par.now ≡ length kept.old.par.now }
{
    if mutations.ends_site(i) {
        return;
    }
    let s = mutations.site[i];
    stamp_up(
        index,
        mutations.time,
        mutations.position[s as usize],
        s + 1,
        crate::bounds::oldest_later(mutations, i),
        kept,
        stamps,
        mutations.node[i],
    );
}

// Whether mutation row i is above an earlier one of its site; its own ancestors are stamped for the next row.
fn overtakes(
    index: EdgeIndex,
    mutations: BySite,
    i: usize,
    kept: &mut Kept,
    stamps: &mut [u32],
) -> bool
    requires { Working mutations.time.now (edges_in index.edges) index.ends.now kept.old.par.now stamps.old ×
        (i < length mutations.site.now) ×
        Going mutations.time.now (edges_in index.edges) mutations.position.now mutations.site.now mutations.node.now i
        kept.old.par.now kept.old.until.now stamps.old }
    ensures answer { result
        ≡ overtaken (edges_in index.entry.edges) mutations.entry.position.now mutations.entry.site.now mutations.entry.node.now i }
    ensures gone { Gone mutations.entry.time.now (edges_in index.entry.edges) mutations.entry.position.now mutations.entry.site.now
        mutations.entry.node.now i kept.new.par.now kept.new.until.now stamps.new }
    ensures same { SameKept kept.old kept.new }
    ensures long { length kept.new.par.now ≡ length kept.old.par.now }
{
    let hit = stamps[mutations.node[i] as usize] == mutations.site[i] + 1;
    stamp_above(index, mutations, i, kept, stamps);
    hit
}

// The lowest mutation row that is above an earlier one of its site; what is kept and the stamps are working columns.
pub fn lowest_above(
    index: EdgeIndex,
    mutations: BySite,
    kept: &mut Kept,
    stamps: &mut [u32],
) -> Option<usize>
    requires { Working mutations.time.now (edges_in index.edges) index.ends.now kept.old.par.now stamps.old ×
        ((u : ℕ) → at kept.old.until.now u ≡ 0) ×
        ((u : ℕ) → at stamps.old u ≡ 0) }
    ensures answer { result
        ≡ lowest_row (overtaken (edges_in index.entry.edges) mutations.entry.position.now mutations.entry.site.now mutations.entry.node.now)
        (length mutations.entry.site.now) }
    ensures same { SameKept kept.old kept.new }
    ensures long { length kept.new.par.now ≡ length kept.old.par.now }
{
    for i in 0..mutations.site.len() {
        if overtakes(index, mutations, i, kept, stamps) {
            return Some(i);
        }
    }
    None
}

// The same of mutations with their rows beside them: the lowest of those rows.
pub fn least_above(
    index: EdgeIndex,
    mutations: BySite,
    row: &[u32],
    kept: &mut Kept,
    stamps: &mut [u32],
) -> Option<usize>
    requires { Working mutations.time.now (edges_in index.edges) index.ends.now kept.old.par.now stamps.old ×
        (length row.now ≡ length mutations.site.now) ×
        ((u : ℕ) → at kept.old.until.now u ≡ 0) ×
        ((u : ℕ) → at stamps.old u ≡ 0) }
    ensures answer { result
        ≡ lowest_row (overtaken_row (edges_in index.entry.edges) mutations.entry.position.now mutations.entry.site.now
        mutations.entry.node.now row.now) (length mutations.entry.site.now) }
    ensures same { SameKept kept.old kept.new }
    ensures long { length kept.new.par.now ≡ length kept.old.par.now }
{
    let mut least = mutations.site.len();
    for i in 0..mutations.site.len() {
        if overtakes(index, mutations, i, kept, stamps) {
            least = least.min(row[i] as usize);
        }
    }
    (least < mutations.site.len()).then_some(least)
}
