// The rule of the mutations' own columns.
ghost use Rattle.std.specs.Prelude.{◌≡◌, ◌<◌, length};
ghost use Rattle.meaning.specs.Words.{lowest_row};
ghost use Rattle.meaning.specs.Columns.{mutations_in};
ghost use Rattle.meaning.specs.Check.{mutation_broken};

use meaning::columns::MutationColumns;

// Whether mutation i names a row that does not exist, or a site row below that of the row before.
fn mutation_broken_at(sites: usize, nodes: usize, mutations: MutationColumns, i: usize) -> bool
    requires { i < length mutations.site.now }
    ensures { result ≡ mutation_broken sites nodes (mutations_in mutations.entry) i }
{
    if sites <= mutations.site[i] as usize {
        return true;
    }
    if nodes <= mutations.node[i] as usize {
        return true;
    }
    if i == 0 {
        return false;
    }
    mutations.site[i] < mutations.site[i - 1]
}

// 9: the lowest such mutation. There are sites and nodes so many.
pub fn first_broken_mutation(
    sites: usize,
    nodes: usize,
    mutations: MutationColumns,
) -> Option<usize>
    ensures { result ≡ lowest_row (mutation_broken sites nodes (mutations_in mutations.entry)) (length mutations.entry.site.now) }
{
    for i in 0..mutations.site.len() {
        if mutation_broken_at(sites, nodes, mutations, i) {
            return Some(i);
        }
    }
    None
}
