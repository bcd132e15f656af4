// The cells of a panel's two blocks before a call, and those that are due after it.
use check_tables::answer::Answer;

// The bytes of the two blocks before the call: where their patterns start.
const STATES: u32 = 11;

const FLAGS: u32 = 140;

// What is due in a cell: a state, missing, or the bytes that it held before.
#[derive(Clone, Copy, Debug, PartialEq, Eq)]
pub enum Cell {
    State(u8),
    Missing,
    Kept,
}

impl From<u32> for Cell {
    fn from(n: u32) -> Cell {
        match n {
            Answer::MISSING => Cell::Missing,
            257 => Cell::Kept,
            _ => Cell::State((n % 256) as u8),
        }
    }
}

// The byte that stands in a cell before the call: from 2 to 251, so it is no flag.
fn mark(first: u32, i: u32) -> u8 {
    ((first % 256 + (i % 256) * 53) % 250 + 2) as u8
}

// Puts the pattern into all cells of both blocks.
pub fn put_marks(states: &mut [u8], flags: &mut [u8]) {
    for (i, (state, flag)) in (0..u32::MAX).zip(states.iter_mut().zip(flags.iter_mut())) {
        *state = mark(STATES, i);
        *flag = mark(FLAGS, i);
    }
}

impl Cell {
    // The bytes of both blocks that are due in cell i.
    fn bytes(self, i: u32) -> (u8, u8) {
        match self {
            Cell::State(v) => (v, 0),
            Cell::Missing => (0, 1),
            Cell::Kept => (mark(STATES, i), mark(FLAGS, i)),
        }
    }
}

// The first cell that is not as it is due.
pub fn first_wrong<F: Fn(u32) -> Cell>(states: &[u8], flags: &[u8], due: F) -> Option<u32>
    requires { F.IsAlwaysCallable due }
{
    for (i, (state, flag)) in (0..u32::MAX).zip(states.iter().zip(flags)) {
        if due(i).bytes(i) != (*state, *flag) {
            return Some(i);
        }
    }
    None
}
