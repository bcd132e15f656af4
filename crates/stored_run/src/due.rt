// What a case has due, and what a call answered, by 01's numbers and with every cell folded into one number.
use meaning::columns::Lent;
use meaning::{Refusal, Told};
use stored::Rows;

// The words before a case: its kind, its bytes, six that the program does not need, then number, row, length and rows that are due, and
// the number of all cells after the call.
pub type Head = [u32; 17];

const DUE: usize = 8;

// A prime; what a column folds to is told by its rest.
const PRIME: u64 = 4294967291;

// A number for all cells of a column, after one for those before.
fn fold<T: Copy + Into<u64>>(before: u64, column: &[T]) -> u64 {
    column
        .iter()
        .fold(before, |h, v| (h % PRIME * 31).wrapping_add((*v).into()))
}

// A number for all cells of four tables and a list.
pub fn fold_all(t: Lent<'_>, samples: &[u32]) -> u64 {
    let nodes = fold(fold(fold(0, t.time), t.birth), t.population);
    let edges = fold(fold(fold(fold(nodes, t.left), t.right), t.parent), t.child);
    let sites = fold(fold(edges, t.position), t.ancestral);
    let mutations = fold(fold(fold(sites, t.site), t.node), t.derived);
    fold(mutations, samples) % PRIME
}

// What a refusal answers: 01's number and row, and no rows.
pub fn refused(x: Refusal) -> [u64; 8] {
    let t = Told::from(x);
    [t.number as u64, t.row as u64, 0, 0, 0, 0, 0, 0]
}

// What a reading answers that was done.
pub fn done(length: u32, n: Rows) -> [u64; 8] {
    [
        0,
        0,
        length as u64,
        n.nodes as u64,
        n.edges as u64,
        n.sites as u64,
        n.mutations as u64,
        n.samples as u64,
    ]
}

// Whether the answer and the cells are those of the case's head.
pub fn agrees(head: &Head, answer: [u64; 8], cells: u64) -> bool {
    let (due, last) = (&head[DUE..16], head[16]);
    answer.iter().zip(due).all(|(x, y)| *x == *y as u64) && last as u64 == cells
}
