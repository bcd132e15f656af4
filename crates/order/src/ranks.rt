// The rows of a column by their numbers: made once, and a number is then found by halving.
ghost use Rattle.std.specs.Prelude.{◌≡◌, ◌<◌, ◌≤◌, length};
ghost use Rattle.meaning.specs.Words.{mem, place_in};
ghost use Rattle.order.specs.Ranks.{Ranked, Helps, Placed};

use crate::Spare;

// A number from low on, below high.
pub fn middle(low: usize, high: usize) -> usize
    requires { low < high }
    ensures { (low ≤ result) × (result < high) }
{
    low + (high - low) / 2
}

// Fills idx with the rows of l by their numbers, of one number the lower row first; own is a working column.
fn rank_by(l: &[u32], own: &mut [u32], idx: &mut [u32])
    requires { (length own.old ≡ length l.now) × (length idx.old ≡ length l.now) × (length l.now ≤ 4096) }
    ensures { Ranked l.now idx.new }
{
    crate::iota(own);
    crate::iota(idx);
    crate::sort_rows(l, own, own, own, idx);
}

// The same, with the front of a longer working column.
fn rank_with(l: &[u32], own: &mut [u32], idx: &mut [u32])
    requires { (length l.now ≤ length own.old) × (length idx.old ≡ length l.now) × (length l.now ≤ 4096) }
    ensures { Ranked l.now idx.new }
{
    let n = l.len();
    rank_by(l, &mut own[..n], idx);
}

// Fills idx with the rows of l by their numbers, of one number the lower row first: by a stable sort, or for few rows with the rows as a second key.
pub fn rank(l: &[u32], idx: &mut [u32])
    requires { (length idx.old ≡ length l.now) × (length l.now ≤ 4096) }
    ensures { Ranked l.now idx.new }
{
    if crate::digits_pay(l.len()) {
        crate::iota(idx);
        crate::digits::one_key(l, idx);
        return;
    }
    let mut own = [0u32; Spare::FEW];
    rank_with(l, &mut own, idx);
}

// The first place whose row has b or more, by halving the range in which it lies.
fn place_of(l: &[u32], idx: &[u32], b: u32) -> usize
    requires { Ranked l.now idx.now }
    ensures { Placed l.now idx.now b result }
{
    let mut low = 0;
    let mut high = idx.len();
    // the range is halved, no place is counted
    while low < high {
        let m = middle(low, high);
        if l[crate::wide(idx[m])] < b {
            low = m + 1;
        } else {
            high = m;
        }
    }
    low
}

// The lowest row with the number b, by halving.
fn halved(l: &[u32], idx: &[u32], b: u32) -> Option<usize>
    requires { Ranked l.now idx.now }
    ensures { result ≡ place_in b l.now }
{
    let p = place_of(l, idx, b);
    if idx.len() <= p {
        return None;
    }
    let r = crate::wide(idx[p]);
    if l[r] != b {
        return None;
    }
    Some(r)
}

// The same by a search through all rows.
fn searched(l: &[u32], b: u32) -> Option<usize>
    ensures { result ≡ place_in b l.now }
{
    l.iter().position(|x| *x == b)
}

// The lowest row with the number b: by halving where idx has the rows in order.
pub fn row_of(l: &[u32], idx: &[u32], b: u32) -> Option<usize>
    requires { Helps l.now idx.now }
    ensures { result ≡ place_in b l.now }
{
    if idx.len() == l.len() {
        return halved(l, idx, b);
    }
    searched(l, b)
}

// Whether some row has the number b.
pub fn known(l: &[u32], idx: &[u32], b: u32) -> bool
    requires { Helps l.now idx.now }
    ensures { result ≡ mem b l.now }
{
    row_of(l, idx, b).is_some()
}
