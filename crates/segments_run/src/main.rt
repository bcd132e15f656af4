// The ancestral segments of two input rows of 01's listing: the output row at each position, and one past the end, by the search over a
// lent slice and by the search on columns. Each line has the birth number, the position and both answers; `-` is none.

#![tactic(auto)]

ghost use Rattle.std.specs.Prelude.{◌≡◌};
ghost use Rattle.segments.specs.Search.{first_row};

use runs::Segment;
use std::io;

// Lends the segments as a slice.
fn by_slice(a: [Segment; 3], x: u32) -> Option<u32>
    ensures { result ≡ first_row a x }
{
    segments::find(&a, x)
}

// Lends the segments as columns.
fn by_columns(a: [Segment; 3], x: u32) -> Option<u32>
    ensures { result ≡ first_row a x }
{
    let [s, t, u] = a;
    let left = [s.left, t.left, u.left];
    let right = [s.right, t.right, u.right];
    let row = [s.row, t.row, u.row];
    segments::find_in_columns(&left, &right, &row, x)
}

// Prints an output row after a space.
fn print_row(rt: &impl Print, row: Option<u32>) -> io::Result<()> {
    match row {
        None => print!(rt; " -"),
        Some(row) => print!(rt; " {row}"),
    }
}

// Prints the line of one position.
fn print_line(rt: &impl Print, birth: u64, x: u32, a: [Segment; 3]) -> io::Result<()> {
    print!(rt; "{birth} {x}")?;
    print_row(rt, by_slice(a, x))?;
    print_row(rt, by_columns(a, x))?;
    rt.write_all(b"\n")
}

// Prints the lines of one input row.
fn print_lines(rt: &impl Print, birth: u64, a: [Segment; 3]) -> io::Result<()> {
    for x in 0..11 {
        print_line(rt, birth, x, a)?;
    }
    Ok(())
}

fn main(rt: HostRuntime) -> io::Result<()> {
    let front = Segment {
        left: 0,
        right: 4,
        row: 0,
    };
    let middle = Segment {
        left: 4,
        right: 6,
        row: 2,
    };
    let rest = Segment {
        left: 6,
        right: 10,
        row: 0,
    };
    print_lines(&rt, 401, [front, middle, rest])?;
    let first = Segment {
        left: 0,
        right: 4,
        row: 3,
    };
    let last = Segment {
        left: 6,
        right: 10,
        row: 3,
    };
    print_lines(&rt, 301, [first, middle, last])
}
