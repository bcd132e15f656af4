// Runs the histories of standard input, which cases.py made, each with every cleaning and with only the last, and says for each group
// how many there were, in how many a call was refused, in how many the two ends differ, and how many end otherwise than is due.

#![tactic(auto)]

mod record;
mod same;
mod steps;
mod twice;

use cases::Count;
use std::{fmt, io};
use twice::End;

// The most bytes of a history, and how many numbers are kept of one.
const BYTES: usize = 65536;

const CELLS: usize = 32768;

// How many histories came to each end.
#[derive(Clone, Copy, Debug, PartialEq, Eq)]
struct Tally {
    all: u64,
    refused: u64,
    apart: u64,
    other: u64,
}

impl Count for Tally {
    type End = End;

    const NOTHING: Tally = Tally {
        all: 0,
        refused: 0,
        apart: 0,
        other: 0,
    };

    fn count(&mut self, end: End) {
        self.all = self.all.wrapping_add(1);
        match end {
            End::Same => {}
            End::Refused => self.refused = self.refused.wrapping_add(1),
            End::Apart => self.apart = self.apart.wrapping_add(1),
            End::Other => self.other = self.other.wrapping_add(1),
        }
    }
}

impl fmt::Display for Tally {
    fn fmt<W: fmt::Write>(&self, f: &mut fmt::Formatter<W>) -> fmt::Result {
        let all = self.all;
        let refused = self.refused;
        let apart = self.apart;
        let other = self.other;
        write!(f, ": {all} histories, {refused} refused, ")?;
        write!(
            f,
            "{apart} with two ends, {other} with one end that is not the one due"
        )
    }
}

fn main(rt: HostRuntime) -> io::Result<()> {
    let mut input = rt.stdin();
    let mut buffer = [0u8; BYTES];
    let mut cells = [0u32; CELLS];
    let _: Option<Tally> = cases::run(&rt, &mut input, |rt, input| {
        cases::take(
            rt,
            input,
            &mut buffer,
            &mut cells,
            |w, bytes| twice::judge(w, bytes),
        )
    })?;
    Ok(())
}
