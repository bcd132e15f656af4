// Whether two records have the same rows in four tables.

// Which columns hold words, and which states.
const WORDS: [usize; 10] = [0, 1, 2, 3, 4, 5, 6, 8, 9, 11];

const STATES: [usize; 2] = [7, 10];

// Whether a record is that whose pairs start at this cell of b.
pub fn same(a: &[u32], s: &[u8], b: &[u32], t: &[u8], at: usize) -> bool {
    WORDS
        .iter()
        .all(|k| cases::column(a, 0, *k) == cases::column(b, at, *k))
        && STATES.iter().all(|k| cases::states(s, a, 0, *k) == cases::states(t, b, at, *k))
}
