// P: a panel of alleles, its answer and every byte of its two blocks. The line gives how many site rows and birth numbers there are, the
// lengths of the blocks, the number, the row and the bytes that are due, then the lists, the cells due, and edits.
use crate::cells;
use crate::cells::Cell;
use crate::line::Line;
use crate::tally::Tally;
use check_tables::answer::Answer;
use check_tables::columns::Columns;
use std::io;

// The bytes that stand in each block, of which the first are lent.
const BYTES: usize = 64;

// Where the lists start on the line.
const LISTS: u32 = 8;

// Says that the line asks for longer blocks than there are.
const NO_BLOCK: Answer = Answer {
    number: 99,
    row: 0,
    state: 0,
};

// Where the birth numbers start on the line.
fn fish_start(line: &Line) -> u32 {
    LISTS.wrapping_add(line.get(1))
}

// Where the cells start on the line.
fn cells_start(line: &Line) -> u32 {
    fish_start(line).wrapping_add(line.get(2))
}

// Where the edits start on the line.
pub fn edits_start(line: &Line) -> u32 {
    cells_start(line).wrapping_add(line.get(7))
}

// The cell that is due: the one on the line, where there are so many.
fn due(line: &Line, i: u32) -> Cell {
    if i < line.get(7) {
        Cell::from(line.get(cells_start(line).wrapping_add(i) as usize))
    } else {
        Cell::Kept
    }
}

// Asks with the lists of the line, and lends the first bytes of the blocks.
fn asked(line: &Line, tables: &Columns, states: &mut [u8], flags: &mut [u8]) -> Answer {
    let sites = line.part(LISTS, line.get(1));
    let fish = line.part(fish_start(line), line.get(2));
    let Some(states) = states.get_mut(..line.get(3) as usize) else {
        return NO_BLOCK;
    };
    let Some(flags) = flags.get_mut(..line.get(4) as usize) else {
        return NO_BLOCK;
    };
    tables.panel(sites, fish, states, flags)
}

// Asks the panel of a line, with both blocks full of the pattern.
pub fn ask(rt: &impl Print, line: &Line, tables: &Columns, tally: &mut Tally) -> io::Result<()> {
    let mut states = [0u8; BYTES];
    let mut flags = [0u8; BYTES];
    cells::put_marks(&mut states, &mut flags);
    let got = asked(line, tables, &mut states, &mut flags);
    let wanted = Answer {
        number: line.get(5) as usize,
        row: line.get(6) as usize,
        state: line.get(7),
    };
    tally.judge(rt, got, wanted)?;
    tally.judge_cells(rt, cells::first_wrong(&states, &flags, |i| due(line, i)))
}
