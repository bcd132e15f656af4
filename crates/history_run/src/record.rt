// A record in one column of words and one of bytes: start and length of each of its twelve columns, then the columns; the population is
// the last of them, and stands in words.
ghost use Rattle.std.specs.Prelude.{◌≤◌};

use meaning::columns::Lent;

// Cells and bytes of a record that has room for every table's limit.
pub const WORDS: usize = 22048;

pub const BYTES: usize = 1536;

// Most cells of a column.
const MOST: usize = 4096;

// Where the populations start, and which column they are.
const STOCKS: u32 = 21024;

const LAST: u32 = 11;

// Copies a column into the cells from this one on.
fn copy<T: Copy, S: Copy + Into<T>>(to: &mut [T], start: usize, column: &[S]) {
    if let Some(to) = to.get_mut(start..) {
        for (cell, v) in to.iter_mut().zip(column) {
            *cell = (*v).into();
        }
    }
}

// Notes start and length of the k-th column.
fn note(rec: &mut [u32], k: u32, start: u32, n: usize)
    requires { n ≤ 4096 }
{
    copy(rec, 2 * k as usize, &[start, n as u32]);
}

// Puts a column of words into a record, as its k-th.
fn put<S: Copy + Into<u32>>(rec: &mut [u32], k: u32, start: u32, column: &[S]) {
    let column = cases::front(column, MOST);
    note(rec, k, start, column.len());
    copy(rec, start as usize, column);
}

// Puts a column of states into a record, as its k-th.
fn put_bytes(rec: &mut [u32], bytes: &mut [u8], k: u32, start: u32, column: &[u8]) {
    let column = cases::front(column, MOST);
    note(rec, k, start, column.len());
    copy(bytes, start as usize, column);
}

// Puts populations into a record, as a call gave them or in words.
pub fn put_stocks<S: Copy + Into<u32>>(rec: &mut [u32], column: &[S]) {
    put(rec, LAST, STOCKS, column);
}

// Puts four tables but the populations into a record.
pub fn keep(rec: &mut [u32], bytes: &mut [u8], t: Lent<'_>) {
    put(rec, 0, 32, t.time);
    put(rec, 1, 1056, t.birth);
    put(rec, 2, 2080, t.left);
    put(rec, 3, 6176, t.right);
    put(rec, 4, 10272, t.parent);
    put(rec, 5, 14368, t.child);
    put(rec, 6, 18464, t.position);
    put_bytes(rec, bytes, 7, 0, t.ancestral);
    put(rec, 8, 18976, t.site);
    put(rec, 9, 20000, t.node);
    put_bytes(rec, bytes, 10, 512, t.derived);
}
