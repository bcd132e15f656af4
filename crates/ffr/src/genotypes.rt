// Alleles for a whole panel (M-100), called from C.
ghost use Rattle.std.specs.Prelude.{◌≡◌};
ghost use Rattle.meaning.specs.Rows.{node_table, edge_table, site_table, mutation_table, tables};
ghost use Rattle.meaning.specs.Answer.{limits};
ghost use Rattle.meaning.specs.Panel.{PanelCall, panel_call};

use crate::pack;
use meaning::columns::Lent;

// The answer's number times 2^32 plus its row; after 0 both blocks have a byte for each fish and site, fish by fish.
#[unsafe(no_mangle)]
pub extern "C" fn ffr_alleles_v2(
    len: u32,
    time: &[u32],
    birth: &[u32],
    population: &[u16],
    left: &[u32],
    right: &[u32],
    parent: &[u32],
    child: &[u32],
    position: &[u32],
    ancestral: &[u8],
    site: &[u32],
    node: &[u32],
    derived: &[u8],
    sites: &[u32],
    fish: &[u32],
    states: &mut [u8],
    flags: &mut [u8],
) -> u64
    ensures { ◌≡◌ {A = PanelCall} (record { code = result; states = states.new; flags = flags.new }) (panel_call limits len
        (tables
        (node_table time.now birth.now population.now)
        (edge_table left.now right.now parent.now child.now)
        (site_table position.now ancestral.now)
        (mutation_table site.now node.now derived.now)) sites.now fish.now states.old flags.old) }
{
    let lent = Lent {
        time,
        birth,
        population,
        left,
        right,
        parent,
        child,
        position,
        ancestral,
        site,
        node,
        derived,
    };
    match panel::alleles(len, lent, sites, fish, states, flags) {
        Err(x) => pack::pack(x),
        Ok(_) => 0,
    }
}
