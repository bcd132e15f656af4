// Reading and writing 01's stored form. What the bytes mean is in crate `form`; answers and round trips are in specs/.

#![tactic(auto)]

ghost use Rattle.std.specs.Prelude.{◌≡◌};
ghost use Rattle.meaning.specs.Rows.{node_table, edge_table, site_table, mutation_table, tables};
ghost use Rattle.meaning.specs.Columns.{lent_in};
ghost use Rattle.meaning.specs.Answer.{stored_limits};
ghost use Rattle.meaning.specs.Files.{reading, writing};
ghost use Rattle.stored.specs.Answers.{read_of, written_of};

mod measure; // measure.rt: whether what was found fits what is lent

use meaning::Refusal;
use meaning::columns::{Ages, EdgeColumns, Lent, MutationColumns, SiteColumns};

// The rows of each table: as many as are found, as many as there is room for, or as many as were read.
#[derive(Clone, Copy, Debug, PartialEq, Eq)]
pub struct Rows {
    pub nodes: usize,
    pub edges: usize,
    pub sites: usize,
    pub mutations: usize,
    pub samples: usize,
}

// What a file that was read holds: L, and so many rows of each table.
#[derive(Clone, Copy, Debug, PartialEq, Eq)]
pub struct Contents {
    pub len: u32,
    pub rows: Rows,
}

// The lengths of the lent columns.
#[derive(Clone, Copy, Debug, PartialEq, Eq)]
pub struct Lengths {
    pub time: usize,
    pub birth: usize,
    pub population: usize,
    pub left: usize,
    pub right: usize,
    pub parent: usize,
    pub child: usize,
    pub position: usize,
    pub ancestral: usize,
    pub site: usize,
    pub node: usize,
    pub derived: usize,
}

// Reads a stored file into lent columns.
pub fn read(
    bytes: &[u8],
    time: &mut [u32],
    birth: &mut [u32],
    population: &mut [u16],
    left: &mut [u32],
    right: &mut [u32],
    parent: &mut [u32],
    child: &mut [u32],
    position: &mut [u32],
    ancestral: &mut [u8],
    site: &mut [u32],
    node: &mut [u32],
    derived: &mut [u8],
    samples: &mut [u32],
) -> Result<Contents, Refusal>
    ensures { read_of result
        (tables
        (node_table time.new birth.new population.new)
        (edge_table left.new right.new parent.new child.new)
        (site_table position.new ancestral.new)
        (mutation_table site.new node.new derived.new)) samples.new
        ≡ reading 2 stored_limits bytes.now
        (tables
        (node_table time.old birth.old population.old)
        (edge_table left.old right.old parent.old child.old)
        (site_table position.old ancestral.old)
        (mutation_table site.old node.old derived.old)) samples.old }
{
    let found = form::walk::scan(bytes)?;
    let lengths = Lengths {
        time: time.len(),
        birth: birth.len(),
        population: population.len(),
        left: left.len(),
        right: right.len(),
        parent: parent.len(),
        child: child.len(),
        position: position.len(),
        ancestral: ancestral.len(),
        site: site.len(),
        node: node.len(),
        derived: derived.len(),
    };
    let rows = measure::found_rows(found);
    if let Some(table) = measure::lacking(rows, measure::room(lengths, samples.len())) {
        return Err(Refusal::NoRoom(table));
    }
    let len = form::fill::get32(bytes, 2);
    form::fill::nodes(bytes, found.nodes.start, found.nodes.count, time, birth);
    measure::settle(population, found.nodes.count);
    form::fill::edges(
        bytes,
        found.edges.start,
        found.edges.count,
        left,
        right,
        parent,
        child,
    );
    form::fill::sites(
        bytes,
        found.sites.start,
        found.sites.count,
        position,
        ancestral,
    );
    form::fill::mutations(
        bytes,
        found.mutations.start,
        found.mutations.count,
        site,
        node,
        derived,
    );
    form::fill::samples(bytes, found.samples.start, found.samples.count, samples);
    Ok(Contents { len, rows })
}

// Writes L, tables and samples into lent bytes.
pub fn write(len: u32, tables: Lent, samples: &[u32], bytes: &mut [u8]) -> Result<usize, Refusal>
    ensures { written_of result bytes.new ≡ writing 2 stored_limits len (lent_in tables.entry) samples.now bytes.old }
{
    let t = tables;
    let lengths = Lengths {
        time: t.time.len(),
        birth: t.birth.len(),
        population: t.population.len(),
        left: t.left.len(),
        right: t.right.len(),
        parent: t.parent.len(),
        child: t.child.len(),
        position: t.position.len(),
        ancestral: t.ancestral.len(),
        site: t.site.len(),
        node: t.node.len(),
        derived: t.derived.len(),
    };
    if let Some(table) = measure::uneven(lengths) {
        return Err(Refusal::Ragged(table));
    }
    let ages = Ages {
        time: t.time,
        birth: t.birth,
    };
    let edges = EdgeColumns {
        left: t.left,
        right: t.right,
        parent: t.parent,
        child: t.child,
    };
    let sites = SiteColumns {
        position: t.position,
        ancestral: t.ancestral,
    };
    let mutations = MutationColumns {
        site: t.site,
        node: t.node,
        derived: t.derived,
    };
    let rows = Rows {
        nodes: t.time.len(),
        edges: t.left.len(),
        sites: t.position.len(),
        mutations: t.site.len(),
        samples: samples.len(),
    };
    if let Some(table) = measure::lacking(rows, measure::most()) {
        return Err(Refusal::TooMany(table));
    }
    if let Some(edge) = measure::first_wide(t.parent, t.child) {
        return Err(Refusal::EdgeWide(edge));
    }
    if let Some(mutation) = measure::first_wide(t.site, t.node) {
        return Err(Refusal::MutationWide(mutation));
    }
    if let Some(stock) = measure::first_populated(t.population) {
        return Err(Refusal::Populated(stock));
    }
    let count = measure::file_bytes(rows);
    if bytes.len() < count {
        return Err(Refusal::NoRoom(meaning::Bytes::NUMBER));
    }
    form::lay::head(len, bytes);
    let a = form::lay::samples(samples, 6, bytes);
    let b = form::lay::nodes(ages, a, bytes);
    let c = form::lay::edges(edges, b, bytes);
    let d = form::lay::sites(sites, c, bytes);
    let e = form::lay::mutations(mutations, d, bytes);
    form::lay::mark(e, *b"EN", bytes);
    Ok(count)
}
