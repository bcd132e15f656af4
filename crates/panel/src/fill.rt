// The bytes of all fish at all sites: what is the same for all of them is filled in once.
ghost use Rattle.std.specs.Prelude.{◌≡◌, ℕ, ◌*◌, ◌≤◌, length};
ghost use Rattle.meaning.specs.Words.{at};
ghost use Rattle.meaning.specs.Columns.{tables_in};
ghost use Rattle.order.specs.Ranks.{Ranked};
ghost use Rattle.alleles.specs.Reading.{Readable};
ghost use Rattle.carrying.specs.Work.{index_by, Prepared};
ghost use Rattle.blocks.specs.Block.{FishWritten};
ghost use Rattle.blocks.specs.Lists.{AllThere};
ghost use Rattle.panel.specs.Rows.{state_byte, flag_byte};
ghost use Rattle.panel.specs.Whole.{SitesNamed};

use crate::portions;
use carrying::Filled;
use carrying::kids::Kids;
use carrying::spans::SpanColumns;
use meaning::columns::Tables;
use meaning::{NodeTable, SiteTable};
use overtaking::known::Kept;

// Fills in what is the same for all sites: the ends of each row's edges by child, and where a parent's edges and a site's mutations lie.
fn prepare(
    len: u32,
    tables: Tables,
    by_child: &[u32],
    ends: &mut [u32],
    edge_first: &mut [u32],
    edge_past: &mut [u32],
    mut_first: &mut [u32],
    mut_past: &mut [u32],
)
    requires { Readable len (tables_in tables) by_child.now ×
        SitesNamed (length tables.sites.position.now) tables.mutations.site.now ×
        (length tables.sites.position.now ≤ 512) ×
        (length tables.mutations.site.now ≤ 1024) ×
        (length ends.old ≡ 1024) ×
        (length edge_first.old ≡ 1024) ×
        (length edge_past.old ≡ 1024) ×
        (length mut_first.old ≡ 512) ×
        (length mut_past.old ≡ 512) ×
        ((v : ℕ) → at edge_past.old v ≡ 0) ×
        ((v : ℕ) → at mut_past.old v ≡ 0) }
    ensures { Prepared len (tables_in tables.entry) by_child.now
        (index_by ends.new edge_first.new edge_past.new mut_first.new mut_past.new) }
{
    ancestry::index::fill_ends(tables.edges, by_child, ends);
    carrying::spans::fill(tables.edges.parent, edge_first, edge_past);
    carrying::spans::fill(tables.mutations.site, mut_first, mut_past);
}

// Both blocks, of lists that name known fish and sites, and that fit.
pub fn fill_blocks(
    len: u32,
    tables: Tables,
    by_child: &[u32],
    by_birth: &[u32],
    sites: &[u32],
    fish: &[u32],
    states: &mut [u8],
    flags: &mut [u8],
)
    requires { Readable len (tables_in tables) by_child.now ×
        SitesNamed (length tables.sites.position.now) tables.mutations.site.now ×
        (length tables.sites.position.now ≤ 512) ×
        (length tables.mutations.site.now ≤ 1024) ×
        Ranked tables.ages.birth.now by_birth.now ×
        AllThere (length tables.sites.position.now) tables.ages.birth.now sites.now fish.now ×
        (length fish.now * length sites.now ≤ length states.old) ×
        (length fish.now * length sites.now ≤ length flags.old) }
    ensures { FishWritten (state_byte (tables_in tables.entry) sites.now fish.now) (length sites.now) (length fish.now) states.old states.new ×
        FishWritten (flag_byte (tables_in tables.entry) sites.now fish.now) (length sites.now) (length fish.now) flags.old flags.new }
{
    let mut ends = [0u32; NodeTable::MOST];
    let mut edge_first = [0u32; NodeTable::MOST];
    let mut edge_past = [0u32; NodeTable::MOST];
    let mut mut_first = [0u32; SiteTable::MOST];
    let mut mut_past = [0u32; SiteTable::MOST];
    let mut rows = [0u32; portions::FISH];
    let mut par = [0u32; NodeTable::MOST];
    let mut until = [0u32; NodeTable::MOST];
    let mut kid = [0u8; NodeTable::MOST];
    let mut kid_until = [0u32; NodeTable::MOST];
    let mut own = [0u32; NodeTable::MOST];
    let mut told = [0u32; NodeTable::MOST];
    let mut state = [0u8; NodeTable::MOST];
    let mut column = [0u8; portions::FISH];
    let mut gaps = [0u8; portions::FISH];
    prepare(
        len,
        tables,
        by_child,
        &mut ends,
        &mut edge_first,
        &mut edge_past,
        &mut mut_first,
        &mut mut_past,
    );
    let filled = Filled {
        len,
        tables,
        by_child,
        ends: &ends,
        parents: SpanColumns {
            first: &edge_first,
            past: &edge_past,
        },
        muts: SpanColumns {
            first: &mut_first,
            past: &mut_past,
        },
    };
    let mut kept = Kept {
        par: &mut par,
        until: &mut until,
    };
    let mut kids = Kids {
        has: &mut kid,
        until: &mut kid_until,
    };
    portions::fill_fish(
        filled,
        by_birth,
        sites,
        fish,
        &mut rows,
        &mut kept,
        &mut kids,
        &mut own,
        &mut told,
        &mut state,
        &mut column,
        &mut gaps,
        states,
        flags,
    );
}
