// For each number, where the rows that name it lie in a column.
ghost use Rattle.std.specs.Prelude.{◌≡◌, ℕ, ◌<◌, ◌≤◌, length};
ghost use Rattle.meaning.specs.Words.{at};
ghost use Rattle.carrying.specs.Spans.{Spans, first_by};

// For each number the first row that names it and the row after the last, which is 0 where no row does.
#[derive(Clone, Copy)]
pub struct SpanColumns<'a> {
    pub first: &'a [u32],
    pub past: &'a [u32],
}

// The first row that names a number: the one noted, or row e where none is noted yet.
fn first_of(first: u32, past: u32, e: u32) -> u32
    ensures { result ≡ first_by first past e }
{
    if past == 0 { e } else { first }
}

// Notes for each number of a column the first row that names it and the row after the last; the ends are 0 at first.
pub fn fill(column: &[u32], first: &mut [u32], past: &mut [u32])
    requires { ((e : ℕ) → e < length column.now → at column.now e < length first.old) ×
        (length past.old ≡ length first.old) ×
        (length column.now ≤ 4294967295) ×
        ((v : ℕ) → at past.old v ≡ 0) }
    ensures { Spans column.now first.new past.new }
{
    for e in 0..column.len() {
        let v = column[e] as usize;
        first[v] = first_of(first[v], past[v], e as u32);
        past[v] = e as u32 + 1;
    }
}
