// W: a panel of more fish than are told at a time, each cell beside the single call's.
use crate::cells;
use crate::cells::Cell;
use crate::line::Line;
use crate::tally::Tally;
use check_tables::answer::Answer;
use check_tables::columns::{Column, Columns};
use std::io;

// The fish and the cells of the panel, at two sites.
const FISH: usize = 1100;

const CELLS: usize = 2 * FISH;

// The bytes of each block: a few stand past the cells.
const BYTES: usize = CELLS + 3;

// Puts the birth numbers of the rows up to the last into a list, over and over.
fn put_fish(tables: &Columns, last: u32, fish: &mut [u32]) {
    let mut row = 0;
    for birth in fish.iter_mut() {
        *birth = tables.read(Column::Birth, row);
        row = if row < last { row + 1 } else { 0 };
    }
}

// The cell that the single call gives, and past the cells one that is due to keep its byte.
fn single(tables: &Columns, sites: &[u32], fish: &[u32], i: u32) -> Cell {
    if CELLS as u32 <= i {
        return Cell::Kept;
    }
    let site = cases::get(sites, (i % 2) as usize);
    let birth = cases::get(fish, (i / 2) as usize);
    Cell::from(tables.allele(site, birth).state)
}

// Asks the panel of a line, which gives the last row of the fish and two sites, with both blocks full of the pattern.
pub fn ask(rt: &impl Print, line: &Line, tables: &Columns, tally: &mut Tally) -> io::Result<()> {
    let sites = [line.get(2), line.get(3)];
    let mut fish = [0u32; FISH];
    put_fish(tables, line.get(1), &mut fish);
    let mut states = [0u8; BYTES];
    let mut flags = [0u8; BYTES];
    cells::put_marks(&mut states, &mut flags);
    let got = tables.panel(&sites, &fish, &mut states, &mut flags);
    let wanted = Answer {
        number: 0,
        row: 0,
        state: CELLS as u32,
    };
    tally.judge(rt, got, wanted)?;
    let wrong = cells::first_wrong(&states, &flags, |i| single(tables, &sites, &fish, i));
    tally.judge_cells(rt, wrong)
}
