// Runs the reader and the writer on the cases of standard input, which cases.py made with a reader of its own,
// and says for each group how many cases there were and how many differ.

#![tactic(auto)]

mod due;
mod reads;
mod writes;

use cases::{Tally, Turn};
use due::Head;
use std::io;
use std::io::Read;

// The most bytes of a case.
const BYTES: usize = 81919;

// Whether reading the bytes of a case goes as its head says.
fn goes(head: &Head, bytes: &[u8]) -> bool {
    match head[0] {
        1 => reads::large(bytes, head),
        2 => reads::few_births(bytes, head),
        _ => reads::few_stocks(bytes, head),
    }
}

// One case: its head, its bytes, and whether reading them goes as the head says; kind 0 ends a group and holds its name.
fn take(
    rt: &impl Print,
    input: &mut impl Read,
    buffer: &mut [u8],
) -> io::Result<Option<Turn<bool>>> {
    let Some(head) = cases::words(input)? else {
        return Ok(None);
    };
    let Some(bytes) = cases::fetch(input, buffer, head[1] as usize)? else {
        return Ok(None);
    };
    if head[0] == 0 {
        rt.write_all(bytes)?;
        return Ok(Some(Turn::Group));
    }
    Ok(Some(Turn::Ran(goes(&head, bytes))))
}

fn main(rt: HostRuntime) -> io::Result<()> {
    let mut input = rt.stdin();
    let mut buffer = [0u8; BYTES];
    let _: Option<Tally> = cases::run(&rt, &mut input, |rt, input| take(rt, input, &mut buffer))?;
    writes::by_hand(&rt)
}
