// Runs the check, the allele call and the panel on the cases of its standard input, and compares each answer with the one that stands
// there.
// It prints a line for each group of cases, with how many came out right, and one for each case that did not.
//
// The input's first lines say how cases are written.

#![tactic(auto)]

mod cells;
mod line;
mod obey;
mod panels;
mod tally;
mod wide;

use check_tables::columns::Columns;
use line::Line;
use std::io;
use tally::Tally;

// The most bytes of the input.
const TEXT: usize = 131072;

// Goes over all lines.
fn run(rt: &impl Print, text: &[u8]) -> io::Result<()> {
    let mut tables = Columns::new();
    let mut tally = Tally::new();
    for text in text.split(|b| *b == b'\n') {
        tally.line = tally.line.wrapping_add(1);
        if text.first() == Some(&b'G') {
            tally.finish(rt)?;
            tally = tally.begin(text);
        } else {
            let mut line = Line::new(text);
            obey::obey(rt, &mut line, &mut tables, &mut tally)?;
        }
    }
    tally.finish(rt)
}

fn main(rt: HostRuntime) -> io::Result<()> {
    let mut buffer = [0u8; TEXT];
    let text = cases::read_full(&mut rt.stdin(), &mut buffer)?;
    run(&rt, text)
}
