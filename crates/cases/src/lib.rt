// Cases on standard input for the programs that run cleanings, joins, histories, readings and listings: heads and bytes, numbers in few
// bytes, the columns that they name, columns held to those due, and a count of how the cases of each group come out.

#![tactic(auto)]

ghost use Rattle.std.specs.Prelude.{◌≤◌, ◌-◌, length, drop, replicate, IfOk, IfSome, IsTrue, ◌≡◌};
ghost use Rattle.std.specs.Io.KnownBytes.{Consumes};

use meaning::columns::{Batch, Lent};
use meaning::{Counts, Refusal, Told};
use std::io::{ErrorKind, Read};
use std::{fmt, io, slice};

#[cfg(test)]
mod tests;

// No program takes more cases, and names of groups, than these.
const TURNS: u32 = 100000;

// Where the answer due starts in the numbers of a case.
const ANSWER: usize = 1;

// A cell of a column that is lent.
pub trait Cell: Copy + Into<u32> {
    // What each cell holds before a call.
    const MARK: Self;
}

impl Cell for u32 {
    const MARK: u32 = 4042322160;
}

impl Cell for u16 {
    const MARK: u16 = 43605;
}

impl Cell for u8 {
    const MARK: u8 = 170;
}

// What a case came to: the end of its group, or how its call went.
#[derive(Clone, Copy, Debug, PartialEq, Eq)]
pub enum Turn<E> {
    Group,
    Ran(E),
}

// A count of calls by how they went, which a line for each group prints.
pub trait Count: Copy + fmt::Display {
    type End: Copy;

    const NOTHING: Self;

    fn count(&mut self, end: Self::End);
}

// How many cases there were, and how many differ from what is due.
#[derive(Clone, Copy, Debug, PartialEq, Eq)]
pub struct Tally {
    pub cases: u64,
    pub differ: u64,
}

impl Count for Tally {
    type End = bool;

    const NOTHING: Tally = Tally {
        cases: 0,
        differ: 0,
    };

    fn count(&mut self, same: bool) {
        self.cases = self.cases.wrapping_add(1);
        if !same {
            self.differ = self.differ.wrapping_add(1);
        }
    }
}

impl fmt::Display for Tally {
    fn fmt<W: fmt::Write>(&self, f: &mut fmt::Formatter<W>) -> fmt::Result {
        let cases = self.cases;
        let differ = self.differ;
        write!(f, ": {cases} cases, {differ} differ")
    }
}

// Takes cases until the input ends, and prints a line for each group; the count of all cases, none where the input has more turns than
// are taken.
pub fn run<R: Print, I: Read, C: Count, F: FnMut(&R, &mut I) -> io::Result<Option<Turn<C::End>>>>(
    rt: &R,
    input: &mut I,
    mut take: F,
) -> io::Result<Option<C>>
    requires { F.IsAlwaysCallable take }
{
    let mut group = C::NOTHING;
    let mut all = C::NOTHING;
    for _ in 0..TURNS {
        match take(rt, input)? {
            None => return Ok(Some(all)),
            Some(Turn::Group) => {
                println!(rt; "{group}")?;
                group = C::NOTHING;
            }
            Some(Turn::Ran(end)) => {
                group.count(end);
                all.count(end);
            }
        }
    }
    Ok(None)
}

// One case whose numbers stand in few bytes: four words (kind, its bytes, where its numbers start in them, how many numbers), then the
// bytes, at most as many as the buffer has. Kind 0 ends a group and holds its name; any other is judged by its cells and its bytes.
pub fn take<R: Print, E, F: FnOnce(&[u32], &[u8]) -> E>(
    rt: &R,
    input: &mut impl Read,
    buffer: &mut [u8],
    cells: &mut [u32],
    judge: F,
) -> io::Result<Option<Turn<E>>>
    requires { F.IsAlwaysCallable judge }
{
    let Some(head) = words::<4>(input)? else {
        return Ok(None);
    };
    let [kind, length, from, count] = head;
    let Some(bytes) = fetch(input, buffer, length as usize)? else {
        return Ok(None);
    };
    if kind == 0 {
        rt.write_all(bytes)?;
        return Ok(Some(Turn::Group));
    }
    decode(bytes, from as usize, count as usize, cells);
    Ok(Some(Turn::Ran(judge(cells, bytes))))
}

// The next n bytes of the input, put into the front of a buffer, where there are so many and it has room for them.
pub fn fetch<'a, I: Read>(
    input: &mut I,
    buffer: &'a mut [u8],
    n: usize,
) -> io::Result<Option<&'a [u8]>>
    ensures long { IfOk result (λ bytes. IfSome bytes (λ v. (length v.now ≡ n) × (n ≤ length buffer.old))) }
    ensures whole { IfOk result (λ bytes. IfSome bytes (λ v. Consumes (I.remaining input.old) (I.remaining input.new) v.now)) }
{
    let Some(room) = buffer.get_mut(..n) else {
        return Ok(None);
    };
    match input.read_exact(room) {
        Ok(()) => Ok(Some(room)),
        Err(e) if e.kind() == ErrorKind::UnexpectedEof => Ok(None),
        Err(e) => Err(e),
    }
}

// The next words of the input, where there are so many: a case's head.
pub fn words<const N: usize>(input: &mut impl Read) -> io::Result<Option<[u32; N]>> {
    let mut buffer = [[0u8; 4]; N];
    let Some(bytes) = fetch(input, buffer.as_flattened_mut(), N.saturating_mul(4))? else {
        return Ok(None);
    };
    let (fours, _) = bytes.as_chunks::<4>();
    let mut words = [0u32; N];
    for (word, four) in words.iter_mut().zip(fours) {
        *word = u32::from_le_bytes(*four);
    }
    Ok(Some(words))
}

// The bytes that the input gives until it ends or the buffer is full.
pub fn read_full<'a>(input: &mut impl Read, buffer: &'a mut [u8]) -> io::Result<&'a [u8]>
    ensures { IfOk result (λ bytes. length bytes.now ≤ length buffer.old) }
{
    let mut done = 0;
    // A read says itself how many bytes it gave, so it is a while.
    while done < buffer.len() {
        match input.read(&mut buffer[done..])? {
            0 => break,
            n => done += n,
        }
    }
    Ok(&buffer[..done])
}

// The next byte, 0 where there is none.
fn byte(bytes: &mut slice::Iter<'_, u8>) -> u8 {
    bytes.next().copied().unwrap_or(0)
}

// The next number: one byte below 254, or two bytes after 254, or four after 255.
fn number(bytes: &mut slice::Iter<'_, u8>) -> u32 {
    match byte(bytes) {
        254 => u32::from(u16::from_le_bytes([byte(bytes), byte(bytes)])),
        255 => u32::from_le_bytes([byte(bytes), byte(bytes), byte(bytes), byte(bytes)]),
        b => u32::from(b),
    }
}

// Puts the numbers that start at this byte into the first n cells, and 0 into all others.
pub fn decode(bytes: &[u8], from: usize, n: usize, cells: &mut [u32])
    ensures { drop n cells.new ≡ replicate (length cells.old - n) 0 }
{
    let mut bytes = bytes.get(from..).unwrap_or(&[]).iter();
    let (filled, rest) = cells.split_at_mut(n.min(cells.len()));
    for cell in filled {
        *cell = number(&mut bytes);
    }
    rest.fill(0);
}

// A cell, 0 past the end.
pub fn get(w: &[u32], i: usize) -> u32 {
    w.get(i).copied().unwrap_or(0)
}

// The part that the k-th pair of start and length names, where the pairs start at this cell; none where it does not lie within.
fn part<'a, T>(s: &'a [T], w: &[u32], at: usize, k: usize) -> &'a [T] {
    let i = at.wrapping_add(k.wrapping_mul(2));
    let start = get(w, i) as usize;
    let end = start + get(w, i.wrapping_add(1)) as usize;
    s.get(start..end).unwrap_or(&[])
}

// The cells that the k-th pair names.
pub fn column(w: &[u32], at: usize, k: usize) -> &[u32] {
    part(w, w, at, k)
}

// The bytes that the k-th pair names.
pub fn states<'a>(s: &'a [u8], w: &[u32], at: usize, k: usize) -> &'a [u8] {
    part(s, w, at, k)
}

// A lent length, at most the cells that there are.
pub fn fit(w: &[u32], at: usize, most: usize) -> usize
    ensures { result ≤ most }
{
    most.min(get(w, at) as usize)
}

// Whether a column has the rows that are due and, past them, what it held before.
pub fn holds<T: Cell>(a: &[T], due: &[u32]) -> bool
    ensures { IsTrue result → length due.now ≤ length a.now }
{
    let Some((rows, rest)) = a.split_at_checked(due.len()) else {
        return false;
    };
    let mark: u32 = T::MARK.into();
    rows.iter().zip(due).all(|(x, y)| (*x).into() == *y) && rest.iter().all(|x| (*x).into() == mark)
}

// Whether a call answered what is due: 01's number and row, and how many rows it wrote.
pub fn answers(w: &[u32], answer: Result<Counts, Refusal>) -> bool {
    let given = match answer {
        Ok(n) => [0, 0, n.nodes, n.edges, n.sites, n.mutations],
        Err(x) => {
            let t = Told::from(x);
            [t.number as usize, t.row, 0, 0, 0, 0]
        }
    };
    let due = w.get(ANSWER..ANSWER + 6).unwrap_or(&[]);
    given.iter().zip(due).all(|(x, y)| *x == *y as usize)
}

// Whether four tables have the rows that are due and, past them, what they held before; the pairs of those due start at this cell, that
// of the populations last.
pub fn tables_hold(w: &[u32], at: usize, t: Lent<'_>) -> bool {
    holds(t.time, column(w, at, 0))
        && holds(t.birth, column(w, at, 1))
        && holds(t.left, column(w, at, 2))
        && holds(t.right, column(w, at, 3))
        && holds(t.parent, column(w, at, 4))
        && holds(t.child, column(w, at, 5))
        && holds(t.position, column(w, at, 6))
        && holds(t.ancestral, column(w, at, 7))
        && holds(t.site, column(w, at, 8))
        && holds(t.node, column(w, at, 9))
        && holds(t.derived, column(w, at, 10))
        && holds(t.population, column(w, at, 11))
}

// The tables whose columns the pairs from a cell on name, with the populations as they are lent.
pub fn tables<'a>(w: &'a [u32], bytes: &'a [u8], at: usize, population: &'a [u16]) -> Lent<'a> {
    Lent {
        time: column(w, at, 0),
        birth: column(w, at, 1),
        population,
        left: column(w, at, 2),
        right: column(w, at, 3),
        parent: column(w, at, 4),
        child: column(w, at, 5),
        position: column(w, at, 6),
        ancestral: states(bytes, w, at, 7),
        site: column(w, at, 8),
        node: column(w, at, 9),
        derived: states(bytes, w, at, 10),
    }
}

// The batch whose columns the pairs from a cell on name, with the populations as they are lent.
pub fn batch<'a>(w: &'a [u32], bytes: &'a [u8], at: usize, population: &'a [u16]) -> Batch<'a> {
    Batch {
        time: column(w, at, 0),
        birth: column(w, at, 1),
        population,
        left: column(w, at, 2),
        right: column(w, at, 3),
        parent: column(w, at, 4),
        child: column(w, at, 5),
        site: column(w, at, 6),
        node: column(w, at, 7),
        derived: states(bytes, w, at, 8),
    }
}

// The first cells; all where there are not so many.
pub fn front<T>(s: &[T], n: usize) -> &[T]
    ensures { length result.now ≤ n }
{
    s.get(..n).unwrap_or(s)
}

// Puts a column's words into the first cells of the populations, as the calls take them, and lends those cells.
pub fn narrow<'a>(column: &[u32], p: &'a mut [u16]) -> &'a [u16]
    ensures { length result.now ≤ length column.now }
{
    for (stock, word) in p.iter_mut().zip(column) {
        *stock = (*word % 65536) as u16;
    }
    &p[..column.len().min(p.len())]
}
