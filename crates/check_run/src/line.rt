// A line of the input and the numbers on it.
use check_tables::columns::{Column, Columns};

// The numbers of a line that are kept, counted from 1.
const CELLS: usize = 48;

// What stands for a number that the line does not have: as a column's number it is none, so that what is put there is lost.
const NONE: u32 = 99;

// A line: its letter, how many numbers it has, and the first of them, each in the cell of its number.
#[derive(Clone, Copy, Debug)]
pub struct Line {
    pub letter: Option<u8>,
    pub count: u32,
    cells: [u32; CELLS],
}

// The number that these digits write, from 0 on past the top of u32.
fn value(digits: &[u8]) -> u32 {
    digits.iter().fold(0u32, |v, d| {
        v.wrapping_mul(10)
            .wrapping_add(u32::from(d.wrapping_sub(b'0')))
    })
}

impl Line {
    // Takes the numbers of a line up to a '#'; whatever is no digit parts them.
    pub fn new(text: &[u8]) -> Line {
        let mut count = 0u32;
        let mut cells = [NONE; CELLS];
        let said = text.split(|b| *b == b'#').next().unwrap_or(&[]);
        for digits in said.split(|b| !b.is_ascii_digit()) {
            if !digits.is_empty() {
                count = count.wrapping_add(1);
                if let Some(cell) = cells.get_mut(count as usize) {
                    *cell = value(digits);
                }
            }
        }
        Line {
            letter: text.first().copied(),
            count,
            cells,
        }
    }

    // The i-th number, 0 past the cells.
    pub fn get(&self, i: usize) -> u32 {
        cases::get(&self.cells, i)
    }

    fn set(&mut self, i: usize, v: u32) {
        if i < CELLS {
            self.cells[i] = v;
        }
    }

    // So many numbers from one on; none where the line is too short.
    pub fn part(&self, from: u32, n: u32) -> &[u32] {
        let start = from as usize;
        self.cells.get(start..start + n as usize).unwrap_or(&[])
    }

    // Makes the edit that stands from number k on (column, row and value), and leaves there the value that was written over.
    fn exchange(&mut self, k: u32, tables: &mut Columns) {
        let k = k as usize;
        let mut old = 0;
        if let Some(column) = Column::numbered(self.get(k)) {
            old = tables.swap(column, self.get(k + 1), self.get(k + 2));
        }
        self.set(k + 2, old);
    }

    // Makes the line's four edits from number k on, those that are left out on no column.
    pub fn edit(&mut self, k: u32, tables: &mut Columns) {
        for i in [0, 3, 6, 9] {
            self.exchange(k.wrapping_add(i), tables);
        }
    }

    // Takes the four edits back, the last one first.
    pub fn mend(&mut self, k: u32, tables: &mut Columns) {
        for i in [9, 6, 3, 0] {
            self.exchange(k.wrapping_add(i), tables);
        }
    }
}
