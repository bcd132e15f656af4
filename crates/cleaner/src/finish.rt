// The mutations that the sweep lists become the result's where they stand: sites, states, and rows of the result in place of the input's.
ghost use Rattle.std.specs.Prelude.{◌≤◌, length, take};
ghost use Rattle.order.specs.Order.{Inside};
ghost use Rattle.cleaner.specs.Finishing.{MutationsDone};

use meaning::columns::MutationColumns;

// The first k mutations listed: each row of a mutation becomes its site, with its state beside it, and each row of a node its place.
pub fn finish_mutations(
    places: &[u32],
    mutations: MutationColumns,
    k: usize,
    out_site: &mut [u32],
    out_node: &mut [u32],
    out_derived: &mut [u8],
)
    requires { (k ≤ length out_site.old) ×
        (k ≤ length out_node.old) ×
        (k ≤ length out_derived.old) ×
        Inside (length mutations.derived.now) (take k out_site.old) }
    ensures { MutationsDone places.now mutations.entry.site.now mutations.entry.derived.now k out_site.old out_node.old
        out_derived.old out_site.new out_node.new out_derived.new }
{
    writing::gather(mutations.derived, out_site, k, out_derived);
    writing::rename(mutations.site, out_site, k);
    writing::rename(places, out_node, k);
}
