// Cleaning of tables that the check passes, by working columns on the stack: one sweep counts, and what it finds is kept where the columns
// have room for it (every finished edge within the limit, and so many mutations); where they have not, a second sweep writes it to the lent
// columns.
ghost use Rattle.std.specs.Prelude.{◌≡◌, List, ℕ, length};
ghost use Rattle.meaning.specs.Columns.{ages_in, edges_in};
ghost use Rattle.meaning.specs.Rows.{node_table, edge_table, site_table, mutation_table, tables};
ghost use Rattle.meaning.specs.Answer.{limits};
ghost use Rattle.meaning.specs.Clean.{outcome_of};
ghost use Rattle.order.specs.Ranks.{Ranked};
ghost use Rattle.byrows.specs.Ground.{Ground};
ghost use Rattle.cleaner.specs.Outcome.{after_check};
ghost use Rattle.cleaner.specs.Tracing.{Passed};
ghost use Rattle.cleaner.specs.Work.{Ready, whole_in};
ghost use Rattle.sweep.specs.Columns.{moves_of, store_of};

use crate::first::FirstSweep;
use crate::{lists, rank, store, trace};
use meaning::columns::{EdgeColumns, Tables};
use meaning::{Counts, EdgeTable, NodeTable, Refusal};
use writing::{Lengths, Needs};

// Room for the samples' rows and then every row.
const KEPT: usize = 1280;

// As many mutations that move are kept.
const MOVES: usize = 512;

// How many rows of nodes, edges and mutations a result has; one edge more than the limit where they pass it.
#[derive(Drop)]
struct Sizes {
    nodes: usize,
    edges: usize,
    mutations: usize,
}

// The samples' rows, marks on them, both orders of the edges, a sweep into lists that may be too short (it counts what it finds), the rows
// kept and their places.
fn work(
    len: u32,
    tables: Tables,
    samples: &[u32],
    by_birth: &[u32],
    kept: &mut [u32],
    places: &mut [u32],
    sample: &mut [u8],
    bl: &mut [u32],
    br: &mut [u32],
    fl: &mut [u32],
    fr: &mut [u32],
    fp: &mut [u32],
    fc: &mut [u32],
    stood: &mut [u8],
    mrow: &mut [u32],
    mlow: &mut [u32],
) -> Sizes
    requires { Passed len (ages_in tables.ages) (edges_in tables.edges) tables.sites.position.now tables.mutations.site.now
        tables.mutations.node.now samples.now ×
        ((length kept.old ≡ 1280) × (length places.old ≡ limits.nodes) × (length sample.old ≡ limits.nodes) × (length bl.old ≡ limits.edges) × (length br.old ≡ limits.edges) × (length fr.old ≡ length fl.old) × (length fp.old ≡ length fl.old) × (length fc.old ≡ length fl.old) × (length stood.old ≡ limits.nodes) × (length mlow.old ≡ length mrow.old)) × Ranked tables.ages.birth.now by_birth.now }
    ensures { (P : List ℕ) →
        Ground limits len (whole_in tables.entry P) samples.now →
        Ready len (whole_in tables.entry P) samples.now
        (record {
          kept = kept.new;
          nodes = result.nodes;
          places = places.new;
          sample = sample.new;
          by_left = bl.new;
          by_right = br.new;
          store = store_of fl.new fr.new fp.new fc.new stood.new result.edges;
          moves = moves_of mrow.new mlow.new result.mutations;
        }) }
{
    let n = tables.ages.time.len();
    let e = tables.edges.left.len();
    keeping::sample_rows(tables.ages.birth, by_birth, samples, kept, &mut sample[..n]);
    rank::both_orders(len, tables.edges, &mut bl[..e], &mut br[..e]);
    let found = trace::swept(
        len,
        tables,
        &sample[..n],
        &bl[..e],
        &br[..e],
        fl,
        fr,
        fp,
        fc,
        &mut stood[..n],
        mrow,
        mlow,
    );
    let nodes = rank::keep_rows(tables.ages, sample, stood, samples.len(), kept, places);
    Sizes {
        nodes: nodes,
        edges: found.edges,
        mutations: found.mutations,
    }
}

// Cleaning of tables that the check passes, with the nodes by birth as it leaves them; bl is a working column.
pub fn clean_sound(
    len: u32,
    even: Tables,
    population: &[u16],
    samples: &[u32],
    out_time: &mut [u32],
    out_birth: &mut [u32],
    out_population: &mut [u16],
    out_left: &mut [u32],
    out_right: &mut [u32],
    out_parent: &mut [u32],
    out_child: &mut [u32],
    out_position: &mut [u32],
    out_ancestral: &mut [u8],
    out_site: &mut [u32],
    out_node: &mut [u32],
    out_derived: &mut [u8],
    out_map: &mut [u32],
    cells: usize,
    bl: &mut [u32],
    by_birth: &[u32],
) -> Result<Counts, Refusal>
    requires { Ground limits len (whole_in even population.now) samples.now ×
        Ranked even.ages.birth.now by_birth.now ×
        (length bl.old ≡ limits.edges) }
    ensures { outcome_of result
        (tables
        (node_table out_time.new out_birth.new out_population.new)
        (edge_table out_left.new out_right.new out_parent.new out_child.new)
        (site_table out_position.new out_ancestral.new)
        (mutation_table out_site.new out_node.new out_derived.new)) out_map.new
        ≡ after_check len (whole_in even.entry population.now) samples.now
        (tables
        (node_table out_time.old out_birth.old out_population.old)
        (edge_table out_left.old out_right.old out_parent.old out_child.old)
        (site_table out_position.old out_ancestral.old)
        (mutation_table out_site.old out_node.old out_derived.old)) out_map.old cells }
{
    let mut kept = [0u32; KEPT];
    let mut places = [0u32; NodeTable::MOST];
    let mut sample = [0u8; NodeTable::MOST];
    let mut br = [0u32; EdgeTable::MOST];
    let mut fl = [0u32; EdgeTable::MOST];
    let mut fr = [0u32; EdgeTable::MOST];
    let mut fp = [0u32; EdgeTable::MOST];
    let mut fc = [0u32; EdgeTable::MOST];
    let mut stood = [0u8; NodeTable::MOST];
    let mut mrow = [0u32; MOVES];
    let mut mlow = [0u32; MOVES];
    let z = work(
        len,
        even,
        samples,
        by_birth,
        &mut kept,
        &mut places,
        &mut sample,
        bl,
        &mut br,
        &mut fl,
        &mut fr,
        &mut fp,
        &mut fc,
        &mut stood,
        &mut mrow,
        &mut mlow,
    );
    let need = Needs {
        nodes: z.nodes,
        edges: z.edges,
        sites: even.sites.position.len(),
        mutations: z.mutations,
        rows: even.ages.time.len(),
    };
    let lent = Lengths {
        time: out_time.len(),
        birth: out_birth.len(),
        population: out_population.len(),
        left: out_left.len(),
        right: out_right.len(),
        parent: out_parent.len(),
        child: out_child.len(),
        position: out_position.len(),
        ancestral: out_ancestral.len(),
        site: out_site.len(),
        node: out_node.len(),
        derived: out_derived.len(),
        nodemap: out_map.len(),
    };
    writing::within::check_room_and_block(need, lent, cells)?;
    let first = FirstSweep {
        edges: EdgeColumns {
            left: &fl,
            right: &fr,
            parent: &fp,
            child: &fc,
        },
        row: &mrow,
        low: &mlow,
        made: z.edges,
        moved: z.mutations,
    };
    store::write_nodes(
        even.ages,
        population,
        &kept,
        z.nodes,
        out_time,
        out_birth,
        out_population,
    );
    store::write_sites(even.sites, out_position, out_ancestral);
    lists::write_lists(
        len,
        even,
        population,
        samples,
        by_birth,
        &kept,
        &places,
        &sample,
        bl,
        &mut br,
        first,
        &mut stood,
        z.nodes,
        out_left,
        out_right,
        out_parent,
        out_child,
        out_site,
        out_node,
        out_derived,
    );
    writing::copy(&places, even.ages.time.len(), out_map);
    Ok(Counts {
        nodes: z.nodes,
        edges: z.edges,
        sites: even.sites.position.len(),
        mutations: z.mutations,
    })
}
