// The columns at one position: the start, with no edge, and the nearest standing row below.
ghost use Rattle.std.specs.Prelude.{◌≡◌, List, ℕ, ◌<◌, length, IfSome};
ghost use Rattle.meaning.specs.Rows.{EdgeColumns};
ghost use Rattle.bridge.specs.Parents.{parent_row};
ghost use Rattle.mend.specs.Right.{Shape};
ghost use Rattle.mend.specs.Line.{par_of};
ghost use Rattle.mend.specs.Kept.{Mended, LowOk};
ghost use Rattle.tree.specs.Sweep.{Plan, Swept};
ghost use Rattle.tree.specs.TreeAt.{low_at, row_given, Flags};

use super::NONE;
use mend::alive;
use order::iota;

// The columns with no edge: a sweep starts so, before every edge. A live row is then a sample, and leads to itself.
pub fn start(
    time: &[u32],
    sample: &[u8],
    parent: &mut [u32],
    count: &mut [u32],
    sum: &mut [u32],
    low: &mut [u32],
    up: &mut [u32],
)
    requires { Shape time.now sample.now parent.old count.old sum.old ×
        (length low.old ≡ length parent.old) ×
        (length up.old ≡ length parent.old) }
    ensures { (l r pa ch bl br : List ℕ) →
        Plan time.now l r pa ch bl br (length parent.new) →
        Swept time.now sample.now parent.new count.new sum.new low.new up.new
        l r pa ch bl br 0 0 0 }
{
    parent.fill(NONE);
    count.fill(0);
    sum.fill(0);
    iota(low);
    up.fill(NONE);
}

// The nearest standing row at or below u, where u is reached.
pub fn low_at(
    time: &[u32],
    sample: &[u8],
    parent: &[u32],
    count: &[u32],
    sum: &[u32],
    low: &[u32],
    u: u32,
) -> Option<u32>
    requires { Mended time.now sample.now parent.now count.now sum.now ×
        LowOk sample.now parent.now count.now low.now ×
        (u < length parent.now) }
    ensures row { IfSome result (λ w. w < length parent.now) }
    ensures low { (E : EdgeColumns) (Q : List ℕ) (x : ℕ) →
        Flags sample.now Q (length parent.now) →
        par_of parent.now ≡ parent_row E x →
        result ≡ row_given (low_at E Q (length parent.now) x u) }
{
    if alive(sample, count, u) {
        return Some(low[u as usize]);
    }
    None
}
