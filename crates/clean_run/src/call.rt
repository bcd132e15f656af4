// One call of the cleaner on the columns of a case, and what came of it held to what is due.
use cases::Cell;
use meaning::columns::Lent;

// Cells of lent columns: two more than the limit, so that a room of one more still has a cell past it.
const NODES: usize = meaning::NodeTable::MOST + 2;

const EDGES: usize = meaning::EdgeTable::MOST + 2;

const SITES: usize = meaning::SiteTable::MOST + 2;

const MUTATIONS: usize = meaning::MutationTable::MOST + 2;

// Where the parts of a case's head start: L (the answer stands behind it), the lent lengths, then start and length of each input column and of each due.
// The population is the last column but one of each, and a list or the node map the last.
const LENGTH: usize = 0;

const LENT: usize = 7;

const GIVEN: usize = 20;

const DUE: usize = 46;

// Whether a case goes as it is due: its answer, and every cell of every lent column and past it.
pub fn goes(w: &[u32], bytes: &[u8]) -> bool {
    let mut time = [u32::MARK; NODES];
    let mut birth = [u32::MARK; NODES];
    let mut population = [u16::MARK; NODES];
    let mut left = [u32::MARK; EDGES];
    let mut right = [u32::MARK; EDGES];
    let mut parent = [u32::MARK; EDGES];
    let mut child = [u32::MARK; EDGES];
    let mut position = [u32::MARK; SITES];
    let mut ancestral = [u8::MARK; SITES];
    let mut site = [u32::MARK; MUTATIONS];
    let mut node = [u32::MARK; MUTATIONS];
    let mut derived = [u8::MARK; MUTATIONS];
    let mut map = [u32::MARK; NODES];
    let mut stocks = [0u16; NODES];
    let given = cases::narrow(cases::column(w, GIVEN, 11), &mut stocks);
    let answer = cleaner::clean(
        cases::get(w, LENGTH),
        cases::column(w, GIVEN, 0),
        cases::column(w, GIVEN, 1),
        given,
        cases::column(w, GIVEN, 2),
        cases::column(w, GIVEN, 3),
        cases::column(w, GIVEN, 4),
        cases::column(w, GIVEN, 5),
        cases::column(w, GIVEN, 6),
        cases::states(bytes, w, GIVEN, 7),
        cases::column(w, GIVEN, 8),
        cases::column(w, GIVEN, 9),
        cases::states(bytes, w, GIVEN, 10),
        cases::column(w, GIVEN, 12),
        &mut time[..cases::fit(w, LENT + 0, NODES)],
        &mut birth[..cases::fit(w, LENT + 1, NODES)],
        &mut population[..cases::fit(w, LENT + 11, NODES)],
        &mut left[..cases::fit(w, LENT + 2, EDGES)],
        &mut right[..cases::fit(w, LENT + 3, EDGES)],
        &mut parent[..cases::fit(w, LENT + 4, EDGES)],
        &mut child[..cases::fit(w, LENT + 5, EDGES)],
        &mut position[..cases::fit(w, LENT + 6, SITES)],
        &mut ancestral[..cases::fit(w, LENT + 7, SITES)],
        &mut site[..cases::fit(w, LENT + 8, MUTATIONS)],
        &mut node[..cases::fit(w, LENT + 9, MUTATIONS)],
        &mut derived[..cases::fit(w, LENT + 10, MUTATIONS)],
        &mut map[..cases::fit(w, LENT + 12, NODES)],
        writing::within::BLOCK,
    );
    let columns = Lent {
        time: &time,
        birth: &birth,
        population: &population,
        left: &left,
        right: &right,
        parent: &parent,
        child: &child,
        position: &position,
        ancestral: &ancestral,
        site: &site,
        node: &node,
        derived: &derived,
    };
    cases::answers(w, answer)
        && cases::tables_hold(w, DUE, columns)
        && cases::holds(&map, cases::column(w, DUE, 12))
}
