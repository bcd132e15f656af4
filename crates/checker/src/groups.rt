// The check of 01 in groups: rules on lengths, on nodes and edges, on sites and mutations, on samples.
ghost use Rattle.std.specs.Prelude.{◌≡◌, ◌≤◌, length};
ghost use Rattle.meaning.specs.Columns.{ages_in, edges_in, tables_in};
ghost use Rattle.meaning.specs.Answer.{done, limits, checked_of};
ghost use Rattle.meaning.specs.Words.{lowest_row};
ghost use Rattle.meaning.specs.Check.{tree_rules, site_rules, sample_rules, repeated};
ghost use Rattle.order.specs.Ranks.{Ranked};
ghost use Rattle.rules.specs.ByChild.{ByChild};
ghost use Rattle.checker.specs.Found.{Sized, TreeSound, Ordered};
ghost use Rattle.checker.specs.Evened.{LengthsTold};

use meaning::columns::{Ages, EdgeColumns, Lent, Tables};
use meaning::{Counts, Refusal, SampleTable};
use overtaking::sites::BySite;

// 1 and 2 on lengths alone: the tables where they refuse nothing.
pub fn lengths_checked(lent: Lent) -> Result<Tables, Refusal>
    ensures { LengthsTold lent.entry result }
{
    let tables = rules::lengths::even(lent).map_err(Refusal::Ragged)?;
    let rows = Counts {
        nodes: tables.ages.time.len(),
        edges: tables.edges.left.len(),
        sites: tables.sites.position.len(),
        mutations: tables.mutations.site.len(),
    };
    if let Some(table) = rules::lengths::large_table(rows) {
        return Err(Refusal::TooMany(table));
    }
    Ok(tables)
}

// 4 to 7; by_child is left with the edges by child, and by_birth with the nodes by their births.
pub fn tree_checked(
    len: u32,
    ages: Ages,
    edges: EdgeColumns,
    by_child: &mut [u32],
    by_birth: &mut [u32],
) -> Result<(), Refusal>
    requires { (length by_child.old ≡ length edges.left.now) ×
        (length edges.left.now ≤ limits.edges) ×
        (length by_birth.old ≡ length ages.birth.now) ×
        (length ages.birth.now ≤ limits.nodes) }
    ensures { (checked_of result ≡ tree_rules len (ages_in ages.entry) (edges_in edges.entry) done) ×
        Ordered result ages.entry.birth.now (edges_in edges.entry) by_child.new by_birth.new }
{
    if let Some(row) = rules::columns::first_repeated(ages.birth, by_birth) {
        return Err(Refusal::BirthRepeated(row));
    }
    if let Some(row) = rules::edges::first_broken_edge(len, ages.time, edges) {
        return Err(Refusal::EdgeBroken(row));
    }
    if let Some(row) = rules::edges::first_unordered(ages, edges) {
        return Err(Refusal::EdgeOrder(row));
    }
    if let Some(row) = rules::edges::first_shared(edges, by_child) {
        return Err(Refusal::EdgeShared(row));
    }
    Ok(())
}

// 8 to 10, of tables whose trees are sound, with the edges by child.
pub fn sites_checked(len: u32, tables: Tables, by_child: &[u32]) -> Result<(), Refusal>
    requires { Sized limits (tables_in tables) ×
        TreeSound len (ages_in tables.ages) (edges_in tables.edges) ×
        ByChild (edges_in tables.edges) by_child.now }
    ensures { checked_of result ≡ site_rules len (tables_in tables.entry) done }
{
    let position = tables.sites.position;
    if let Some(row) = rules::columns::first_broken_site(len, position) {
        return Err(Refusal::SiteBroken(row));
    }
    let nodes = tables.ages.time.len();
    if let Some(row) = rules::mutations::first_broken_mutation(
        position.len(),
        nodes,
        tables.mutations,
    ) {
        return Err(Refusal::MutationBroken(row));
    }
    let mutations = BySite::new(
        tables.ages.time,
        position,
        tables.mutations.site,
        tables.mutations.node,
    );
    if let Some(row) = overtaking::first_above(len, tables.edges, mutations, by_child) {
        return Err(Refusal::MutationAbove(row));
    }
    Ok(())
}

// 12: the lowest sample that an earlier one repeats, with a column of its own for the samples in order.
fn first_twice(samples: &[u32]) -> Option<usize>
    requires { length samples.now ≤ limits.samples }
    ensures { result ≡ lowest_row (repeated samples.now) (length samples.now) }
{
    let n = samples.len();
    let mut by_number = [0u32; SampleTable::MOST];
    rules::columns::first_repeated(samples, &mut by_number[..n])
}

// 11 and 12, with the nodes by their births.
pub fn samples_checked(birth: &[u32], by_birth: &[u32], samples: &[u32]) -> Result<(), Refusal>
    requires { Ranked birth.now by_birth.now × (length samples.now ≤ limits.samples) }
    ensures { checked_of result ≡ sample_rules birth.now samples.now done }
{
    if let Some(row) = rules::columns::first_unknown(birth, by_birth, samples) {
        return Err(Refusal::SampleUnknown(row));
    }
    if let Some(row) = first_twice(samples) {
        return Err(Refusal::SampleRepeated(row));
    }
    Ok(())
}
