// The tables of nodes and sites of a result, written to the lent columns where they are known to fit.
ghost use Rattle.std.specs.Prelude.{◌≡◌, map, ◌≤◌, length, take};
ghost use Rattle.meaning.specs.Words.{at};
ghost use Rattle.meaning.specs.Answer.{put};
ghost use Rattle.order.specs.Order.{Inside};

use meaning::columns::{Ages, SiteColumns};

// Table 1: the rows kept. The columns that are written stay apart, as C lends them.
pub fn write_nodes(
    ages: Ages,
    population: &[u16],
    kept: &[u32],
    k: usize,
    out_time: &mut [u32],
    out_birth: &mut [u32],
    out_population: &mut [u16],
)
    requires { (k ≤ length kept.now) ×
        (k ≤ length out_time.old) ×
        (k ≤ length out_birth.old) ×
        (k ≤ length out_population.old) ×
        Inside (length ages.time.now) (take k kept.now) ×
        (length population.now ≡ length ages.time.now) }
    ensures { (out_time.new ≡ put (map (at ages.entry.time.now) (take k kept.now)) out_time.old) ×
        (out_birth.new ≡ put (map (at ages.entry.birth.now) (take k kept.now)) out_birth.old) ×
        (out_population.new ≡ put (map (at population.now) (take k kept.now)) out_population.old) }
{
    writing::gather(ages.time, kept, k, out_time);
    writing::gather(ages.birth, kept, k, out_birth);
    writing::gather(population, kept, k, out_population);
}

// Table 3: all sites, unchanged.
pub fn write_sites(sites: SiteColumns, out_position: &mut [u32], out_ancestral: &mut [u8])
    requires { (length sites.position.now ≤ length out_position.old) ×
        (length sites.position.now ≤ length out_ancestral.old) }
    ensures { (out_position.new ≡ put sites.entry.position.now out_position.old) ×
        (out_ancestral.new ≡ put sites.entry.ancestral.now out_ancestral.old) }
{
    writing::copy(sites.position, sites.position.len(), out_position);
    writing::copy(sites.ancestral, sites.position.len(), out_ancestral);
}
