// Writes by hand, and what is answered: the refusals of a write in their order, and just room.
use cases::front;
use meaning::Told;
use meaning::columns::Lent;
use std::io;

// Writes one edge and one mutation, some times, births, populations and samples, and says what is answered.
fn wrote(
    rt: &impl Print,
    what: &[u8],
    parent: u32,
    node: u32,
    times: usize,
    births: usize,
    population: &[u16],
    samples: &[u32],
    out: &mut [u8],
) -> io::Result<()> {
    let t = [0u32; 1024];
    let one = [1u32; 1];
    let p = [parent];
    let u = [node];
    let state = [65u8; 1];
    let tables = Lent {
        time: front(&t, times),
        birth: front(&t, births),
        population,
        left: &one,
        right: &one,
        parent: &p,
        child: &one,
        position: &one,
        ancestral: &state,
        site: &one,
        node: &u,
        derived: &state,
    };
    let (number, row) = match stored::write(10, tables, samples, out) {
        Ok(_) => (0, 0),
        Err(x) => {
            let t = Told::from(x);
            (t.number, t.row)
        }
    };
    rt.write_all(what)?;
    println!(rt; "{number} {row}")
}

// The same with as many times and births as populations, and one sample.
fn wrote_even(
    rt: &impl Print,
    what: &[u8],
    parent: u32,
    node: u32,
    population: &[u16],
    out: &mut [u8],
) -> io::Result<()> {
    let few = [5u32; 1];
    let n = population.len();
    wrote(rt, what, parent, node, n, n, population, &few, out)
}

// Columns that differ in length, and a row over the limit: each with all that is refused later.
fn shapes(rt: &impl Print) -> io::Result<()> {
    let few = [5u32; 1];
    let over = [5u32; 257];
    let one = [9u16; 1];
    let mut out = [0u8; 51];
    wrote(
        rt,
        b"write, columns differ: ",
        65536,
        65536,
        2,
        1,
        &one,
        &over,
        &mut out,
    )?;
    wrote(
        rt,
        b"write, a birth too many: ",
        65536,
        65536,
        1,
        2,
        &one,
        &over,
        &mut out,
    )?;
    wrote(
        rt,
        b"write, a population too few: ",
        0,
        0,
        2,
        2,
        &one,
        &few,
        &mut out,
    )?;
    wrote(
        rt,
        b"write, a population too many: ",
        65536,
        65536,
        0,
        0,
        &one,
        &over,
        &mut out,
    )?;
    wrote(
        rt,
        b"write, a sample too many: ",
        65536,
        65536,
        1,
        1,
        &one,
        &over,
        &mut out,
    )
}

// Wide rows and populations, each with all that is refused later.
fn rows(rt: &impl Print) -> io::Result<()> {
    let one = [9u16; 1];
    let two = [0u16, 0, 65535, 9];
    let mut most = [0u16; 1024];
    most[1023] = 1;
    let mut out = [0u8; 51];
    wrote_even(rt, b"write, a wide edge: ", 65536, 65536, &one, &mut out)?;
    wrote_even(
        rt,
        b"write, a wide mutation: ",
        65535,
        65536,
        &one,
        &mut out,
    )?;
    wrote_even(rt, b"write, a population: ", 65535, 65535, &one, &mut out)?;
    wrote_even(
        rt,
        b"write, two populations: ",
        65535,
        65535,
        &two,
        &mut out,
    )?;
    wrote_even(
        rt,
        b"write, the last population: ",
        65535,
        65535,
        &most,
        &mut out,
    )
}

pub fn by_hand(rt: &impl Print) -> io::Result<()> {
    let none = [0u16; 1];
    let mut large = [0u8; 64];
    let mut just = [0u8; 52];
    let mut short = [0u8; 51];
    wrote_even(rt, b"write, all well: ", 65535, 65535, &none, &mut large)?;
    shapes(rt)?;
    rows(rt)?;
    wrote_even(rt, b"write, just room: ", 0, 0, &none, &mut just)?;
    wrote_even(rt, b"write, a byte short: ", 0, 0, &none, &mut short)
}
