// Asks for what the listing program prints, on the stored files of standard input, and holds it to the text that stands after each file,
// which cases.py made; says for each group how many files there were and how many differ.

#![tactic(auto)]

use cases::{Cell, Tally, Turn};
use std::io;
use std::io::Read;

// Room for a file of one byte more than the longest, and for every text.
const FILE: usize = 65537;

const TEXT: usize = 313344;

// Whether a file prints this text, and nothing past it is written.
fn prints(file: &[u8], text: &[u8]) -> bool {
    let mut out = [u8::MARK; TEXT];
    let m = show::answer(file, &mut out);
    cases::front(&out, m) == text && out.iter().skip(m).all(|b| *b == u8::MARK)
}

// One case: its kind (0 ends a group and holds its name), the lengths of file and text, the file and the text.
fn take(
    rt: &impl Print,
    input: &mut impl Read,
    file: &mut [u8],
    text: &mut [u8],
) -> io::Result<Option<Turn<bool>>> {
    let Some(head) = cases::words::<3>(input)? else {
        return Ok(None);
    };
    let [kind, n, m] = head;
    let Some(file) = cases::fetch(input, file, n as usize)? else {
        return Ok(None);
    };
    if kind == 0 {
        rt.write_all(file)?;
        return Ok(Some(Turn::Group));
    }
    let Some(text) = cases::fetch(input, text, m as usize)? else {
        return Ok(None);
    };
    Ok(Some(Turn::Ran(prints(file, text))))
}

fn main(rt: HostRuntime) -> io::Result<()> {
    let mut input = rt.stdin();
    let mut file = [0u8; FILE];
    let mut text = [0u8; TEXT];
    let all: Option<Tally> = cases::run(&rt, &mut input, |rt, input| {
        take(rt, input, &mut file, &mut text)
    })?;
    match all {
        Some(all) => println!(rt; "in all{all}"),
        None => Ok(()),
    }
}
