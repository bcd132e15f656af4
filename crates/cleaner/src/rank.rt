// Rows in the order of a key, and the rows kept with their places.
ghost use Rattle.std.specs.Prelude.{◌≡◌, ℕ, ◌+◌, ◌-◌, ◌≤◌, length, take};
ghost use Rattle.meaning.specs.Words.{rows};
ghost use Rattle.meaning.specs.Columns.{ages_in};
ghost use Rattle.accepted.specs.Checked.{Apart};
ghost use Rattle.order.specs.Order.{Inside, SortedFrom, by_keys};
ghost use Rattle.cleaner.specs.Tracing.{KeptRows};

use meaning::columns::{Ages, EdgeColumns};
use order::Spare;

// Fills a column with its own row numbers from the last one down.
fn iota_down(idx: &mut [u32])
    requires { length idx.old ≤ 4294967296 }
    ensures { idx.new ≡ rows (λ i. length idx.old - (i + 1)) (length idx.old) }
{
    let n = idx.len();
    for i in 0..n {
        idx[i] = (n - (i + 1)) as u32;
    }
}

// A table's rows in the order of a key column; spare is a working column. Where rows tie, a stable sort leaves the later row first. Of edges
// that begin together the one with the older parent then comes first, and what enters the tree dead costs nothing.
fn ranked_down(key: &[u32], idx: &mut [u32], spare: &mut [u32])
    requires { (length idx.old ≡ length key.now) × (length key.now ≤ 4096) × (length spare.old ≡ length key.now) }
    ensures { SortedFrom (by_keys key.now key.now key.now key.now) (rows (λ i. i) (length key.now))
        idx.new }
{
    iota_down(idx);
    let mut counters = [0u32; Spare::COUNTERS];
    order::sort_one_with(key, idx, spare, &mut counters);
}

// The edges in the orders of left, in bl, and of right, in br.
pub fn both_orders(len: u32, edges: EdgeColumns, bl: &mut [u32], br: &mut [u32])
    requires { (length bl.old ≡ length edges.left.now) ×
        (length br.old ≡ length edges.left.now) ×
        (length edges.left.now ≤ 4096) }
    ensures { SortedFrom
        (by_keys edges.entry.left.now edges.entry.left.now edges.entry.left.now edges.entry.left.now)
        (rows (λ i. i) (length edges.entry.left.now)) bl.new ×
        SortedFrom
        (by_keys edges.entry.right.now edges.entry.right.now edges.entry.right.now edges.entry.right.now)
        (rows (λ i. i) (length edges.entry.right.now)) br.new }
{
    ranked_down(edges.left, bl, br);
    keys::ends::by_right(len, edges, bl, br);
}

// The other rows kept behind the ns samples' rows, and every row's place; how many rows are kept.
pub fn keep_rows(
    ages: Ages,
    sample: &[u8],
    stood: &[u8],
    ns: usize,
    kept: &mut [u32],
    places: &mut [u32],
) -> usize
    requires { (length ages.time.now ≤ length sample.now) ×
        (length ages.time.now ≤ length stood.now) ×
        (ns + length ages.time.now ≤ length kept.old) ×
        (length kept.old ≤ 4294967295) ×
        (length ages.time.now ≤ length places.old) ×
        Apart ages.birth.now ×
        Inside (length ages.time.now) (take ns kept.old) }
    ensures { KeptRows (ages_in ages.entry) sample.now stood.now ns kept.old result
        kept.new places.new }
{
    let n = ages.time.len();
    let no = keeping::others(
        &stood[..n],
        &sample[..n],
        ages.time,
        ages.birth,
        &mut kept[ns..],
    );
    let k = ns + no;
    keeping::places(kept, k, kept, 0, &mut places[..n]);
    k
}
