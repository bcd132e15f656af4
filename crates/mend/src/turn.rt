// What a row that got or lost a live child does to the columns of the standing rows below and above.
ghost use Rattle.std.specs.Prelude.{◌≡◌, ◌<◌, length, ◌≢◌};
ghost use Rattle.mend.specs.Listing.{Listed, Noted};
ghost use Rattle.mend.specs.Turns.{settled, Gaining, Gain, Losing, Loss};

use super::low::relabel;
use super::up::{cede, put_up, seat};
use super::{NONE, has_more};

// s is no row, or a sample, or has more than n live children.
#[tactic(auto, unfolding(crate::specs::Turns::settled))]
fn is_settled(sample: &[u8], count: &[u32], n: u32, s: u32) -> bool
    requires { (s ≢ 4294967295) → (s < length sample.now) × (s < length count.now) }
    ensures { result ≡ settled sample.now count.now n s }
{
    s == NONE || has_more(sample, count, n, s)
}

// s, a live row or none, has got a live child below which w stands. The answer is the new number of listed rows.
pub fn gain(
    time: &[u32],
    sample: &[u8],
    parent: &[u32],
    count: &[u32],
    low: &mut [u32],
    up: &mut [u32],
    touched: &mut [u32],
    listed: &mut [u8],
    k: usize,
    w: u32,
    s: u32,
) -> usize
    requires { Gaining time.now sample.now parent.now count.now low.old up.old w s × Listed (length up.old) k touched.old listed.old }
    ensures { Gain sample.now parent.now count.now low.old low.new up.old up.new w s × Noted (length up.old) up.old up.new touched.old listed.old touched.new listed.new k result }
{
    if is_settled(sample, count, 2, s) {
        return put_up(up, touched, listed, k, w, s);
    }
    let z = low[s as usize];
    let o = relabel(time, sample, parent, count, low, s, s);
    seat(up, touched, listed, k, w, z, s, o)
}

// s, a live row or none, has lost the live child below which w stands. The answer is the new number of listed rows. It is not gain with a
// flag: it asks for another label and other rows to be seated, so one function for both would ask both.
pub fn lose(
    time: &[u32],
    sample: &[u8],
    parent: &[u32],
    count: &[u32],
    sum: &[u32],
    low: &mut [u32],
    up: &mut [u32],
    touched: &mut [u32],
    listed: &mut [u8],
    k: usize,
    w: u32,
    s: u32,
) -> usize
    requires { Losing time.now sample.now parent.now count.now sum.now low.old up.old w s × Listed (length up.old) k touched.old listed.old }
    ensures { Loss sample.now parent.now count.now sum.now low.old low.new up.old up.new w s × Noted (length up.old) up.old up.new touched.old listed.old touched.new listed.new k result }
{
    if is_settled(sample, count, 1, s) {
        return put_up(up, touched, listed, k, w, NONE);
    }
    let d = sum[s as usize];
    let z = low[d as usize];
    let o = relabel(time, sample, parent, count, low, s, z);
    cede(up, touched, listed, k, w, z, s, o)
}
