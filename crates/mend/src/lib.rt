// Live and standing rows, and the climbs that mend counts and sums after one parent changed: what one row of the tree's columns
// decides. A row is live if it is a sample or has a live child; it stands if it is a sample or has two. Where a row lives and does
// not stand, its sum is its only live child.

#![tactic(auto)]

mod low;
pub mod turn;
mod up;

ghost use Rattle.std.specs.Prelude.{◌≡◌, ℕ, ◌+◌, ◌-◌, ◌%◌, ◌<◌, true, length, ◌≢◌, slice_index, slice_set};
ghost use Rattle.mend.specs.Right.{none, W, live, stands, more, feeds, Lacks, Excess, Right, Shape, Grows};
ghost use Rattle.mend.specs.Line.{Gained, Lost};

// In a column of rows: no row. A cell is a u32, since memory is fixed, and a row or none that goes from one cell to another stays one.
pub const NONE: u32 = 4294967295;

// u is a sample or has more than n live children.
#[tactic(auto, unfolding(crate::specs::Right::more))]
fn has_more(sample: &[u8], count: &[u32], n: u32, u: u32) -> bool
    requires { (u < length sample.now) × (u < length count.now) }
    ensures { result ≡ more sample.now count.now n u }
{
    0 < sample[u as usize] || n < count[u as usize]
}

// u is a sample or has a live child.
#[tactic(auto, unfolding(crate::specs::Right::more, crate::specs::Right::live))]
pub fn alive(sample: &[u8], count: &[u32], u: u32) -> bool
    requires { (u < length sample.now) × (u < length count.now) }
    ensures { result ≡ live sample.now count.now u }
{
    has_more(sample, count, 0, u)
}

// u is a sample or has two live children.
#[tactic(auto, unfolding(crate::specs::Right::more, crate::specs::Right::stands))]
fn stands_at(sample: &[u8], count: &[u32], u: u32) -> bool
    requires { (u < length sample.now) × (u < length count.now) }
    ensures { result ≡ stands sample.now count.now u }
{
    has_more(sample, count, 1, u)
}

// q gets the live child d.
fn bump(count: &mut [u32], sum: &mut [u32], q: u32, d: u32)
    requires { (q < length count.old) × (q < length sum.old) × (slice_index count.old q < none) }
    ensures { (count.new ≡ slice_set count.old q (slice_index count.old q + 1)) × (sum.new ≡ slice_set sum.old q ((slice_index sum.old q + d) % W)) }
{
    let i = q as usize;
    count[i] += 1;
    sum[i] = sum[i].wrapping_add(d);
}

// q loses the live child d.
fn take(count: &mut [u32], sum: &mut [u32], q: u32, d: u32)
    requires { (q < length count.old) × (q < length sum.old) × (0 < slice_index count.old q) }
    ensures { (count.new ≡ slice_set count.old q (slice_index count.old q - 1)) × ((s : ℕ) × (sum.new ≡ slice_set sum.old q s) × (s < W) × ((s + d) % W ≡ slice_index sum.old q)) }
{
    let i = q as usize;
    count[i] -= 1;
    sum[i] = sum[i].wrapping_sub(d);
}

// q0 lacks its live child d0; the rows that come to live get w as their low, and the answer is the row where mending ends.
pub fn climb_up(
    time: &[u32],
    sample: &[u8],
    parent: &[u32],
    count: &mut [u32],
    sum: &mut [u32],
    low: &mut [u32],
    q0: u32,
    d0: u32,
    w: u32,
) -> u32
    requires { Shape time.now sample.now parent.now count.old sum.old × (length low.old ≡ length parent.now) × Grows time.now parent.now × ((q0 ≢ none) → q0 < length parent.now) × Lacks (length parent.now) (feeds parent.now (live sample.now count.old)) count.old sum.old q0 d0 × (d0 < length parent.now) × (slice_index parent.now d0 ≡ q0) }
    ensures { Right sample.now parent.now count.new sum.new × Gained sample.now parent.now count.old count.new low.old low.new q0 d0 w result }
{
    let mut q = q0;
    let mut d = d0;
    // A climb counts nothing: it goes from row to parent row.
    while q != NONE {
        let was = alive(sample, count, q);
        bump(count, sum, q, d);
        if was {
            return q;
        }
        low[q as usize] = w;
        d = q;
        q = parent[q as usize];
    }
    NONE
}

// q0 has d0 in excess; the answer is the row where mending ends. The way down reads the sums and the way up the lows, so they are two.
pub fn climb_down(
    time: &[u32],
    sample: &[u8],
    parent: &[u32],
    count: &mut [u32],
    sum: &mut [u32],
    q0: u32,
    d0: u32,
) -> u32
    requires { Shape time.now sample.now parent.now count.old sum.old × Grows time.now parent.now × ((q0 ≢ none) → q0 < length parent.now) × (d0 < length parent.now) × Excess (length parent.now) (feeds parent.now (live sample.now count.old)) count.old sum.old q0 d0 }
    ensures { Right sample.now parent.now count.new sum.new × Lost time.now sample.now parent.now count.old count.new q0 result }
{
    let mut q = q0;
    let mut d = d0;
    // A climb, as in `climb_up`.
    while q != NONE {
        take(count, sum, q, d);
        if alive(sample, count, q) {
            return q;
        }
        d = q;
        q = parent[q as usize];
    }
    NONE
}
