// A history run twice: with every cleaning, and with only the last.
ghost use Rattle.std.specs.Prelude.{◌≤◌};

use crate::{record, same, steps};
use meaning::columns::Lent;

// Where the parts of a history's numbers start: how many steps, the start record's pairs, the due end's pairs, the steps.
const COUNT: usize = 1;

const START: usize = 2;

const DUE: usize = 26;

const STEPS: usize = 50;

// The cells of a step.
const STEP: usize = 21;

// Kinds of steps; any other is the last cleaning.
const JOIN: u32 = 1;

const CLEAN: u32 = 2;

// What a history came to.
#[derive(Clone, Copy, Debug, PartialEq, Eq)]
pub enum End {
    Same,
    Refused,
    Apart,
    Other,
}

// Where a step stands.
fn place(k: usize) -> usize
    ensures { result ≤ 300000 }
{
    if 10000 < k { 0 } else { STEPS + STEP * k }
}

// One step of a history; cleanings but the last only where all are asked for.
fn step(w: &[u32], bytes: &[u8], k: usize, all: bool, rec: &mut [u32], states: &mut [u8]) -> bool {
    let at = place(k);
    match cases::get(w, at) {
        JOIN => steps::join(w, bytes, at + 1, rec, states),
        CLEAN if !all => true,
        _ => steps::clean(w, at + 1, rec, states),
    }
}

// Puts the start record in place, its populations in words as they stand.
fn begin(w: &[u32], bytes: &[u8], rec: &mut [u32], states: &mut [u8]) {
    let start = Lent {
        time: cases::column(w, START, 0),
        birth: cases::column(w, START, 1),
        population: &[],
        left: cases::column(w, START, 2),
        right: cases::column(w, START, 3),
        parent: cases::column(w, START, 4),
        child: cases::column(w, START, 5),
        position: cases::column(w, START, 6),
        ancestral: cases::states(bytes, w, START, 7),
        site: cases::column(w, START, 8),
        node: cases::column(w, START, 9),
        derived: cases::states(bytes, w, START, 10),
    };
    record::keep(rec, states, start);
    record::put_stocks(rec, cases::column(w, START, 11));
}

// Every step in turn; false where a call is refused.
fn run(w: &[u32], bytes: &[u8], all: bool, rec: &mut [u32], states: &mut [u8]) -> bool {
    begin(w, bytes, rec, states);
    let n = cases::get(w, COUNT) as usize;
    for k in 0..n {
        if !step(w, bytes, k, all, rec, states) {
            return false;
        }
    }
    true
}

// Runs a history both ways, and holds the two ends to each other and to the end due.
pub fn judge(w: &[u32], bytes: &[u8]) -> End {
    let mut a = [0u32; record::WORDS];
    let mut s = [0u8; record::BYTES];
    let mut b = [0u32; record::WORDS];
    let mut t = [0u8; record::BYTES];
    if !run(w, bytes, true, &mut a, &mut s) {
        return End::Refused;
    }
    if !run(w, bytes, false, &mut b, &mut t) {
        return End::Refused;
    }
    if !same::same(&a, &s, &b, &t, 0) {
        return End::Apart;
    }
    if same::same(&a, &s, w, bytes, DUE) {
        End::Same
    } else {
        End::Other
    }
}
