// Tests by numbers: whether rows fit the lent columns and the limits, whether columns are of one length, whether rows fit their fields.
ghost use Rattle.std.specs.Prelude.{◌≡◌, min, ◌+◌, ◌*◌, ◌≤◌, length};
ghost use Rattle.meaning.specs.Words.{lowest_row, zeros};
ghost use Rattle.meaning.specs.Answer.{put};
ghost use Rattle.meaning.specs.Files.{too_wide, populated};
ghost use Rattle.stored.specs.Answers.{Ample, Lacking, Uneven, most_rows};

use crate::{Lengths, Rows};
use form::Layout;
use meaning::{EdgeTable, MutationTable, NodeTable, SampleTable, SiteTable};

// How many rows there is room for: as many as the shortest column of each table has cells.
pub fn room(n: Lengths, samples: usize) -> Rows
    ensures { result ≡ record { nodes = min n.time (min n.birth n.population); edges = min n.left (min n.right (min n.parent n.child)); sites = min n.position n.ancestral; mutations = min n.site (min n.node n.derived); samples = samples } }
{
    Rows {
        nodes: n.time.min(n.birth.min(n.population)),
        edges: n.left.min(n.right.min(n.parent.min(n.child))),
        sites: n.position.min(n.ancestral),
        mutations: n.site.min(n.node.min(n.derived)),
        samples,
    }
}

// How many rows of each table were found.
pub fn found_rows(l: Layout) -> Rows
    ensures { result ≡ record { nodes = l.nodes.count; edges = l.edges.count; sites = l.sites.count; mutations = l.mutations.count; samples = l.samples.count } }
{
    Rows {
        nodes: l.nodes.count,
        edges: l.edges.count,
        sites: l.sites.count,
        mutations: l.mutations.count,
        samples: l.samples.count,
    }
}

// The lowest table that lacks room.
pub fn lacking(need: Rows, lent: Rows) -> Option<usize>
    ensures { Lacking need lent result }
{
    if lent.nodes < need.nodes {
        return Some(NodeTable::NUMBER);
    }
    if lent.edges < need.edges {
        return Some(EdgeTable::NUMBER);
    }
    if lent.sites < need.sites {
        return Some(SiteTable::NUMBER);
    }
    if lent.mutations < need.mutations {
        return Some(MutationTable::NUMBER);
    }
    if lent.samples < need.samples {
        return Some(SampleTable::NUMBER);
    }
    None
}

// The limits of the tables.
pub fn most() -> Rows
    ensures { result ≡ most_rows }
{
    Rows {
        nodes: NodeTable::STORED,
        edges: EdgeTable::STORED,
        sites: SiteTable::STORED,
        mutations: MutationTable::STORED,
        samples: SampleTable::STORED,
    }
}

// The lowest table whose columns differ in length.
pub fn uneven(n: Lengths) -> Option<usize>
    ensures { Uneven n result }
{
    if n.birth != n.time {
        return Some(NodeTable::NUMBER);
    }
    if n.population != n.time {
        return Some(NodeTable::NUMBER);
    }
    if n.right != n.left {
        return Some(EdgeTable::NUMBER);
    }
    if n.parent != n.left {
        return Some(EdgeTable::NUMBER);
    }
    if n.child != n.left {
        return Some(EdgeTable::NUMBER);
    }
    if n.ancestral != n.position {
        return Some(SiteTable::NUMBER);
    }
    if n.node != n.site {
        return Some(MutationTable::NUMBER);
    }
    if n.derived != n.site {
        return Some(MutationTable::NUMBER);
    }
    None
}

// The lowest row of two columns that names a row above 65,535.
pub fn first_wide(a: &[u32], b: &[u32]) -> Option<usize>
    requires { length b.now ≡ length a.now }
    ensures { result ≡ lowest_row (too_wide 2 a.now b.now) (length a.now) }
{
    for i in 0..a.len() {
        if 65535 < a[i] || 65535 < b[i] {
            return Some(i);
        }
    }
    None
}

// The lowest row whose population is not 0, for which a file has no field. With `position` a goal is left that takes a law more.
pub fn first_populated(population: &[u16]) -> Option<usize>
    ensures { result ≡ lowest_row (populated population.now) (length population.now) }
{
    for i in 0..population.len() {
        if population[i] != 0 {
            return Some(i);
        }
    }
    None
}

// The population 0 for each of n rows read, since a file has no other.
pub fn settle(population: &mut [u16], n: usize)
    requires { n ≤ length population.old }
    ensures { population.new ≡ put (zeros n) population.old }
{
    population[..n].fill(0);
}

// How many bytes so many rows take, the first record and the end with them.
pub fn file_bytes(n: Rows) -> usize
    requires { Ample n most_rows }
    ensures { result ≡ 8 + n.samples * 6 + n.nodes * 10 + n.edges * 14 + n.sites * 7 + n.mutations * 7 }
{
    8 + n.samples * 6 + n.nodes * 10 + n.edges * 14 + n.sites * 7 + n.mutations * 7
}
