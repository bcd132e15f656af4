// 01's rule 10 by rows, and 26 as 10: whether a mutation is above an earlier one of its site.

#![tactic(auto)]

ghost use Rattle.std.specs.Prelude.{◌≡◌, false, List, ℕ, ◌<◌, ◌≤◌, length};
ghost use Rattle.meaning.specs.Words.{lowest_row};
ghost use Rattle.meaning.specs.Rows.{edges_of, mutation_table};
ghost use Rattle.meaning.specs.Columns.{edges_in};
ghost use Rattle.meaning.specs.Answer.{limits};
ghost use Rattle.meaning.specs.Check.{edge_shared, mutation_above};
ghost use Rattle.rules.specs.ByChild.{ByChild};
ghost use Rattle.ancestry.specs.Column.{Rising};
ghost use Rattle.ancestry.specs.Index.{Whole};
ghost use Rattle.overtaking.specs.Overtaken.{overtaken_row};

use ancestry::edge_index::EdgeIndex;
use meaning::NodeTable;
use meaning::columns::EdgeColumns;

pub mod known; // answers of the lookup, kept
pub mod sites; // the mutations by site: where a site's rows end, and whether they stand older first
mod bounds; // how far up a mutation's ancestors matter
mod stamps; // stamping upwards, one mutation after another

use known::Kept;
use sites::BySite;

// 01's rule 10 by rows: the lowest mutation row whose node is a proper ancestor, at its site's position, of the node of an earlier
// mutation at that site, whatever the derived states are. Where each site's mutations stand older first there is nothing to look at.
pub fn first_above(
    len: u32,
    edges: EdgeColumns,
    mutations: BySite,
    by_child: &[u32],
) -> Option<usize>
    requires { (length mutations.time.now ≤ limits.nodes) ×
        (length edges.left.now ≤ limits.edges) ×
        Rising mutations.time.now (edges_in edges) ×
        Whole (edges_in edges) len ×
        ByChild (edges_in edges) by_child.now }
    ensures { (derived : List ℕ) → result
        ≡ lowest_row (mutation_above (edges_of (λ x. x) (edges_in edges.entry)) mutations.entry.position.now (λ x. x)
        (mutation_table mutations.entry.site.now mutations.entry.node.now derived)) (length mutations.entry.site.now) }
{
    if !mutations.some_younger_first() {
        return None;
    }
    let mut ends = [0u32; NodeTable::MOST];
    let mut par = [0u32; NodeTable::MOST];
    let mut until = [0u32; NodeTable::MOST];
    let mut stamps = [0u32; NodeTable::MOST];
    ancestry::index::fill_ends(edges, by_child, &mut ends);
    let index = EdgeIndex {
        len,
        edges,
        by_child,
        ends: &ends,
    };
    let mut kept = Kept {
        par: &mut par,
        until: &mut until,
    };
    stamps::lowest_above(index, mutations, &mut kept, &mut stamps)
}

// The same of mutations with their rows beside them: the lowest of those rows. Its working columns stand on the stack, so it is apart from
// the sort that puts the edges by child.
fn least_by_child(
    len: u32,
    edges: EdgeColumns,
    by_child: &[u32],
    mutations: BySite,
    row: &[u32],
) -> Option<usize>
    requires { (length mutations.time.now ≤ limits.nodes) ×
        (length edges.left.now ≤ limits.edges) ×
        Rising mutations.time.now (edges_in edges) ×
        Whole (edges_in edges) len ×
        ByChild (edges_in edges) by_child.now ×
        (length row.now ≡ length mutations.site.now) }
    ensures { result
        ≡ lowest_row (overtaken_row (edges_in edges.entry) mutations.entry.position.now mutations.entry.site.now mutations.entry.node.now
        row.now) (length mutations.entry.site.now) }
{
    let mut ends = [0u32; NodeTable::MOST];
    let mut par = [0u32; NodeTable::MOST];
    let mut until = [0u32; NodeTable::MOST];
    let mut stamps = [0u32; NodeTable::MOST];
    ancestry::index::fill_ends(edges, by_child, &mut ends);
    let index = EdgeIndex {
        len,
        edges,
        by_child,
        ends: &ends,
    };
    let mut kept = Kept {
        par: &mut par,
        until: &mut until,
    };
    stamps::least_above(index, mutations, row, &mut kept, &mut stamps)
}

// The same of edges that are not by child yet; by_child is a working column. Where each site's mutations stand older first the edges are
// left alone.
pub fn least_row_above(
    len: u32,
    edges: EdgeColumns,
    mutations: BySite,
    row: &[u32],
    by_child: &mut [u32],
) -> Option<usize>
    requires { (length mutations.time.now ≤ limits.nodes) ×
        (length edges.left.now ≤ limits.edges) ×
        Rising mutations.time.now (edges_in edges) ×
        Whole (edges_in edges) len ×
        ((i : ℕ) → i < length edges.left.now → edge_shared (edges_in edges) i ≡ false) ×
        (length row.now ≡ length mutations.site.now) ×
        (length by_child.old ≡ length edges.left.now) }
    ensures { result
        ≡ lowest_row (overtaken_row (edges_in edges.entry) mutations.entry.position.now mutations.entry.site.now mutations.entry.node.now
        row.now) (length mutations.entry.site.now) }
{
    if !mutations.some_younger_first() {
        return None;
    }
    rules::shared::by_child(edges, by_child);
    least_by_child(len, edges, by_child, mutations, row)
}
