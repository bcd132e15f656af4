// Tables 1 to 4 as they are lent: columns of numbers, one type for each table, whose columns are equally long.
ghost use Rattle.meaning.specs.Rows.{age_table, edge_table, site_table, mutation_table};
ghost use Rattle.meaning.specs.Even.{EvenAges, EvenEdges, EvenSites, EvenMutations};

// The ages and birth numbers of table 1, which are all that the rules look at.
#[derive(Clone, Copy)]
pub struct Ages<'a> {
    pub time: &'a [u32],
    pub birth: &'a [u32],
    pub ghost even: { EvenAges (age_table time.now birth.now) },
}

// Table 2: where each edge begins and ends, and its parent and child.
#[derive(Clone, Copy)]
pub struct EdgeColumns<'a> {
    pub left: &'a [u32],
    pub right: &'a [u32],
    pub parent: &'a [u32],
    pub child: &'a [u32],
    pub ghost even: { EvenEdges (edge_table left.now right.now parent.now child.now) },
}

// Table 3: the position and the ancestral state of each site.
#[derive(Clone, Copy)]
pub struct SiteColumns<'a> {
    pub position: &'a [u32],
    pub ancestral: &'a [u8],
    pub ghost even: { EvenSites (site_table position.now ancestral.now) },
}

// Table 4: the site row, the node and the derived state of each mutation.
#[derive(Clone, Copy)]
pub struct MutationColumns<'a> {
    pub site: &'a [u32],
    pub node: &'a [u32],
    pub derived: &'a [u8],
    pub ghost even: { EvenMutations (mutation_table site.now node.now derived.now) },
}

// Tables 1 to 4 as the rules look at them: without the populations, which play no part in a rule.
#[derive(Clone, Copy)]
pub struct Tables<'a> {
    pub ages: Ages<'a>,
    pub edges: EdgeColumns<'a>,
    pub sites: SiteColumns<'a>,
    pub mutations: MutationColumns<'a>,
}

// Tables 1 to 4 as a caller lends them: the columns of a table may differ in length.
#[derive(Clone, Copy)]
pub struct Lent<'a> {
    pub time: &'a [u32],
    pub birth: &'a [u32],
    pub population: &'a [u16],
    pub left: &'a [u32],
    pub right: &'a [u32],
    pub parent: &'a [u32],
    pub child: &'a [u32],
    pub position: &'a [u32],
    pub ancestral: &'a [u8],
    pub site: &'a [u32],
    pub node: &'a [u32],
    pub derived: &'a [u8],
}

// A batch as the rules look at it: without the populations. It has no sites of its own, and its edges and mutations name births.
#[derive(Clone, Copy)]
pub struct BatchTables<'a> {
    pub ages: Ages<'a>,
    pub edges: EdgeColumns<'a>,
    pub mutations: MutationColumns<'a>,
}

// A batch as a caller lends it: the columns of a table may differ in length.
#[derive(Clone, Copy)]
pub struct Batch<'a> {
    pub time: &'a [u32],
    pub birth: &'a [u32],
    pub population: &'a [u16],
    pub left: &'a [u32],
    pub right: &'a [u32],
    pub parent: &'a [u32],
    pub child: &'a [u32],
    pub site: &'a [u32],
    pub node: &'a [u32],
    pub derived: &'a [u8],
}
