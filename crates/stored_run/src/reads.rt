// The reader on a case, and the writer on what it read.
use crate::due;
use crate::due::Head;
use cases::front;
use meaning::columns::Lent;
use stored::{Contents, Rows};

// What stands in the cells that are written to, before.
const MARK: u8 = 9;

// Whether the rows that were read are written back byte for byte, and no byte after them changes.
fn back(bytes: &[u8], len: u32, n: Rows, t: Lent<'_>, samples: &[u32]) -> bool {
    let rows = Lent {
        time: front(t.time, n.nodes),
        birth: front(t.birth, n.nodes),
        population: front(t.population, n.nodes),
        left: front(t.left, n.edges),
        right: front(t.right, n.edges),
        parent: front(t.parent, n.edges),
        child: front(t.child, n.edges),
        position: front(t.position, n.sites),
        ancestral: front(t.ancestral, n.sites),
        site: front(t.site, n.mutations),
        node: front(t.node, n.mutations),
        derived: front(t.derived, n.mutations),
    };
    let mut out = [MARK; 81920];
    match stored::write(len, rows, front(samples, n.samples), &mut out) {
        Err(_) => false,
        Ok(count) => out.get(count) == Some(&MARK) && front(&out, count) == bytes,
    }
}

// Whether an answer is the one due, with every cell of the lent columns after the call.
fn held(head: &Head, answer: [u64; 8], t: Lent<'_>, samples: &[u32]) -> bool {
    due::agrees(head, answer, due::fold_all(t, samples))
}

// Reads a case into columns with room for every limit.
pub fn large(bytes: &[u8], head: &Head) -> bool {
    let mut time = [7u32; 1024];
    let mut birth = [7u32; 1024];
    let mut population = [7u16; 1024];
    let mut left = [7u32; 4096];
    let mut right = [7u32; 4096];
    let mut parent = [7u32; 4096];
    let mut child = [7u32; 4096];
    let mut position = [7u32; 512];
    let mut ancestral = [7u8; 512];
    let mut site = [7u32; 1024];
    let mut node = [7u32; 1024];
    let mut derived = [7u8; 1024];
    let mut samples = [7u32; 256];
    let answer = stored::read(
        bytes,
        &mut time,
        &mut birth,
        &mut population,
        &mut left,
        &mut right,
        &mut parent,
        &mut child,
        &mut position,
        &mut ancestral,
        &mut site,
        &mut node,
        &mut derived,
        &mut samples,
    );
    let t = Lent {
        time: &time,
        birth: &birth,
        population: &population,
        left: &left,
        right: &right,
        parent: &parent,
        child: &child,
        position: &position,
        ancestral: &ancestral,
        site: &site,
        node: &node,
        derived: &derived,
    };
    match answer {
        Err(x) => held(head, due::refused(x), t, &samples),
        Ok(Contents { len, rows }) => {
            held(head, due::done(len, rows), t, &samples) && back(bytes, len, rows, t, &samples)
        }
    }
}

// Reads a case into a few rows of room; the shortest column is another one in each table. Births and populations are lent.
fn small(bytes: &[u8], head: &Head, birth: &mut [u32], population: &mut [u16]) -> bool {
    let mut time = [7u32; 4];
    let mut left = [7u32; 5];
    let mut right = [7u32; 5];
    let mut parent = [7u32; 4];
    let mut child = [7u32; 5];
    let mut position = [7u32; 2];
    let mut ancestral = [7u8; 3];
    let mut site = [7u32; 3];
    let mut node = [7u32; 3];
    let mut derived = [7u8; 2];
    let mut samples = [7u32; 1];
    let answer = stored::read(
        bytes,
        &mut time,
        birth,
        population,
        &mut left,
        &mut right,
        &mut parent,
        &mut child,
        &mut position,
        &mut ancestral,
        &mut site,
        &mut node,
        &mut derived,
        &mut samples,
    );
    let t = Lent {
        time: &time,
        birth: birth,
        population: population,
        left: &left,
        right: &right,
        parent: &parent,
        child: &child,
        position: &position,
        ancestral: &ancestral,
        site: &site,
        node: &node,
        derived: &derived,
    };
    let numbers = match answer {
        Err(x) => due::refused(x),
        Ok(Contents { len, rows }) => due::done(len, rows),
    };
    held(head, numbers, t, &samples)
}

// The births' column is the shortest of the nodes.
pub fn few_births(bytes: &[u8], head: &Head) -> bool {
    let mut birth = [7u32; 3];
    let mut population = [7u16; 4];
    small(bytes, head, &mut birth, &mut population)
}

// That of the populations is.
pub fn few_stocks(bytes: &[u8], head: &Head) -> bool {
    let mut birth = [7u32; 4];
    let mut population = [7u16; 3];
    small(bytes, head, &mut birth, &mut population)
}
