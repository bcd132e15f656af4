// Runs the cleaner on the cases of standard input, which cases.py made with a cleaner of its own,
// and says for each group how many cases there were and how many differ.

#![tactic(auto)]

mod call;

use cases::Tally;
use std::io;

// The most bytes of a case, and how many numbers are kept of one.
const BYTES: usize = 262144;

const CELLS: usize = 53248;

fn main(rt: HostRuntime) -> io::Result<()> {
    let mut input = rt.stdin();
    let mut buffer = [0u8; BYTES];
    let mut cells = [0u32; CELLS];
    let all: Option<Tally> = cases::run(&rt, &mut input, |rt, input| {
        cases::take(
            rt,
            input,
            &mut buffer,
            &mut cells,
            |w, bytes| call::goes(w, bytes),
        )
    })?;
    match all {
        Some(all) => println!(rt; "in all{all}"),
        None => Ok(()),
    }
}
