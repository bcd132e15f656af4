// Cleaning: the tables are checked, the tree is swept along the chromosome, the rows kept and the edges are put in order,
// and all is written once it is known to fit.

#![tactic(auto)]

ghost use Rattle.std.specs.Prelude.{◌≡◌, length};
ghost use Rattle.meaning.specs.Rows.{node_table, edge_table, site_table, mutation_table, tables};
ghost use Rattle.meaning.specs.Forest.{stands};
ghost use Rattle.meaning.specs.Answer.{limits};
ghost use Rattle.meaning.specs.Clean.{outcome_of, cleaning};

mod edges_out;
mod fill;
mod finish;
mod first;
mod lists;
mod rank;
mod sound;
mod store;
mod trace;

use meaning::columns::{Ages, EdgeColumns, Lent, MutationColumns, SiteColumns, Tables};
use meaning::{Counts, EdgeTable, NodeTable, Refusal};

// 01's cleaning call, the check of the tables and then the cleaning, for a caller whose block takes so many cells:
// under four is 13, row 7, before anything is written. It takes the columns one by one: that a time is below 2^32 is known of a slice that is
// a parameter, not of one in a struct, and cleaning asks for it.
pub fn clean<'a>(
    len: u32,
    time: &'a [u32],
    birth: &'a [u32],
    population: &'a [u16],
    left: &'a [u32],
    right: &'a [u32],
    parent: &'a [u32],
    child: &'a [u32],
    position: &'a [u32],
    ancestral: &'a [u8],
    site: &'a [u32],
    node: &'a [u32],
    derived: &'a [u8],
    samples: &[u32],
    out_time: &mut [u32],
    out_birth: &mut [u32],
    out_population: &mut [u16],
    out_left: &mut [u32],
    out_right: &mut [u32],
    out_parent: &mut [u32],
    out_child: &mut [u32],
    out_position: &mut [u32],
    out_ancestral: &mut [u8],
    out_site: &mut [u32],
    out_node: &mut [u32],
    out_derived: &mut [u8],
    out_map: &mut [u32],
    cells: usize,
) -> Result<Counts, Refusal>
    ensures { outcome_of result
        (tables
        (node_table out_time.new out_birth.new out_population.new)
        (edge_table out_left.new out_right.new out_parent.new out_child.new)
        (site_table out_position.new out_ancestral.new)
        (mutation_table out_site.new out_node.new out_derived.new)) out_map.new
        ≡ cleaning stands limits len
        (tables
        (node_table time.now birth.now population.now)
        (edge_table left.now right.now parent.now child.now)
        (site_table position.now ancestral.now)
        (mutation_table site.now node.now derived.now)) samples.now
        (tables
        (node_table out_time.old out_birth.old out_population.old)
        (edge_table out_left.old out_right.old out_parent.old out_child.old)
        (site_table out_position.old out_ancestral.old)
        (mutation_table out_site.old out_node.old out_derived.old)) out_map.old cells }
{
    let mut by_child = [0u32; EdgeTable::MOST];
    let mut by_birth = [0u32; NodeTable::MOST];
    let m = birth.len();
    let lent = Lent {
        time,
        birth,
        population,
        left,
        right,
        parent,
        child,
        position,
        ancestral,
        site,
        node,
        derived,
    };
    checker::check_all_lent(len, lent, samples, &mut by_child, &mut by_birth)?;
    let even = Tables {
        ages: Ages { time, birth },
        edges: EdgeColumns {
            left,
            right,
            parent,
            child,
        },
        sites: SiteColumns {
            position,
            ancestral,
        },
        mutations: MutationColumns {
            site,
            node,
            derived,
        },
    };
    sound::clean_sound(
        len,
        even,
        population,
        samples,
        out_time,
        out_birth,
        out_population,
        out_left,
        out_right,
        out_parent,
        out_child,
        out_position,
        out_ancestral,
        out_site,
        out_node,
        out_derived,
        out_map,
        cells,
        &mut by_child,
        &by_birth[..m],
    )
}
