// A step of the searches in n log n: the next place with a row below a bound.
ghost use Rattle.std.specs.Prelude.{◌≤◌, length};
ghost use Rattle.rules.specs.Lined.{Next};

// The first place from i on whose row is below k; the number of places where there is none.
pub fn next_below(idx: &[u32], k: usize, i: usize) -> usize
    requires { i ≤ length idx.now }
    ensures { Next idx.now k i result }
{
    for p in i..idx.len() {
        if (idx[p] as usize) < k {
            return p;
        }
    }
    idx.len()
}
