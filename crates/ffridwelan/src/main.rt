// Reads a stored file on standard input, and prints its cleaned tables.

#![tactic(auto)]

ghost use Rattle.std.specs.Prelude.{◌≤◌, length, IfOk};

use std::io;
use std::io::Read;

// One byte more than the longest input, so that a longer one is seen.
const MOST: usize = 65537;

// The bytes that the input gives until it ends or the buffer is full.
fn read_full<'a>(input: &mut impl Read, buffer: &'a mut [u8]) -> io::Result<&'a [u8]>
    ensures { IfOk result (λ bytes. length bytes.now ≤ length buffer.old) }
{
    let mut done = 0;
    // A read says itself how many bytes it gave, so it is a while.
    while done < buffer.len() {
        match input.read(&mut buffer[done..])? {
            0 => break,
            n => done += n,
        }
    }
    Ok(&buffer[..done])
}

fn main(rt: HostRuntime) -> io::Result<()> {
    let mut buffer = [0u8; MOST];
    let mut out = [0u8; 313344];
    let input = read_full(&mut rt.stdin(), &mut buffer)?;
    let m = show::answer(input, &mut out);
    rt.write_all(&out[..m])
}
