// The join of a case on columns of the lent lengths, and the columns held to those due.
use cases::Cell;
use meaning::columns::Lent;

// Cells of lent columns: two more than the limit, so that a room of one more still has a cell past it.
const NODES: usize = meaning::NodeTable::MOST + 2;

const EDGES: usize = meaning::EdgeTable::MOST + 2;

const SITES: usize = meaning::SiteTable::MOST + 2;

const MUTATIONS: usize = meaning::MutationTable::MOST + 2;

// Where the parts of a case's numbers start: L (the answer stands behind it), the lent lengths, then start and length of each column of the base, of the batch and of those due.
// The population is the last column of each.
const LENGTH: usize = 0;

const LENT: usize = 7;

const BASE: usize = 19;

const BATCH: usize = 43;

const DUE: usize = 63;

// Whether a case goes as it is due: its answer, and every cell of every lent column and past it.
pub fn goes(w: &[u32], bytes: &[u8]) -> bool {
    let mut time = [u32::MARK; NODES];
    let mut birth = [u32::MARK; NODES];
    let mut population = [u16::MARK; NODES];
    let mut left = [u32::MARK; EDGES];
    let mut right = [u32::MARK; EDGES];
    let mut parent = [u32::MARK; EDGES];
    let mut child = [u32::MARK; EDGES];
    let mut position = [u32::MARK; SITES];
    let mut ancestral = [u8::MARK; SITES];
    let mut site = [u32::MARK; MUTATIONS];
    let mut node = [u32::MARK; MUTATIONS];
    let mut derived = [u8::MARK; MUTATIONS];
    let mut base = [0u16; NODES];
    let mut young = [0u16; NODES];
    let first = cases::narrow(cases::column(w, BASE, 11), &mut base);
    let more = cases::narrow(cases::column(w, BATCH, 9), &mut young);
    let answer = joiner::join(
        cases::get(w, LENGTH),
        cases::tables(w, bytes, BASE, first),
        cases::batch(w, bytes, BATCH, more),
        &mut time[..cases::fit(w, LENT + 0, NODES)],
        &mut birth[..cases::fit(w, LENT + 1, NODES)],
        &mut population[..cases::fit(w, LENT + 11, NODES)],
        &mut left[..cases::fit(w, LENT + 2, EDGES)],
        &mut right[..cases::fit(w, LENT + 3, EDGES)],
        &mut parent[..cases::fit(w, LENT + 4, EDGES)],
        &mut child[..cases::fit(w, LENT + 5, EDGES)],
        &mut position[..cases::fit(w, LENT + 6, SITES)],
        &mut ancestral[..cases::fit(w, LENT + 7, SITES)],
        &mut site[..cases::fit(w, LENT + 8, MUTATIONS)],
        &mut node[..cases::fit(w, LENT + 9, MUTATIONS)],
        &mut derived[..cases::fit(w, LENT + 10, MUTATIONS)],
        writing::within::BLOCK,
    );
    let columns = Lent {
        time: &time,
        birth: &birth,
        population: &population,
        left: &left,
        right: &right,
        parent: &parent,
        child: &child,
        position: &position,
        ancestral: &ancestral,
        site: &site,
        node: &node,
        derived: &derived,
    };
    cases::answers(w, answer) && cases::tables_hold(w, DUE, columns)
}
