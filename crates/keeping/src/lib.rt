// The functions around the sweep of a cleaning: the samples' rows, the other rows kept in order, and each row's place among the rows kept.

#![tactic(auto)]

ghost use Rattle.std.specs.Prelude.{◌≡◌, true, ◌++◌, map, ℕ, ◌+◌, ◌<◌, ◌≤◌, length, take};
ghost use Rattle.meaning.specs.Words.{at, mem, rows};
ghost use Rattle.meaning.specs.Rows.{age_table};
ghost use Rattle.meaning.specs.Answer.{put};
ghost use Rattle.meaning.specs.Clean.{no_row, row_in};
ghost use Rattle.accepted.specs.Checked.{Apart};
ghost use Rattle.order.specs.Order.{Inside};
ghost use Rattle.order.specs.Counts.{bit};
ghost use Rattle.order.specs.Ranks.{Ranked};
ghost use Rattle.byrows.specs.Rows.{all_rows, sample_rows};
ghost use Rattle.keeping.specs.Others.{other, other_rows, OthersListed};
ghost use Rattle.keeping.specs.Places.{placed};

use order::wide;

// Takes every mark away.
fn unmark(marks: &mut [u8])
    ensures { marks.new ≡ rows (λ u. 0) (length marks.old) }
{
    marks.fill(0);
}

// The row of each sample in list order, found among the births in order, and a mark on each of these rows.
pub fn sample_rows(
    birth: &[u32],
    by_birth: &[u32],
    samples: &[u32],
    srow: &mut [u32],
    sample: &mut [u8],
)
    requires { ((i : ℕ) → i < length samples.now → mem (at samples.now i) birth.now ≡ true) × (length samples.now ≤ length srow.old) × (length birth.now ≤ 4294967295) × (length sample.old ≡ length birth.now) × Ranked birth.now by_birth.now }
    ensures { (srow.new ≡ put (sample_rows birth.now samples.now) srow.old) × (sample.new ≡ rows (λ u. bit (mem u (sample_rows birth.now samples.now))) (length birth.now)) }
{
    unmark(sample);
    for i in 0..samples.len() {
        let r = order::ranks::row_of(birth, by_birth, samples[i]).unwrap();
        srow[i] = r as u32;
        sample[r] = 1;
    }
}

// Whether row u stands somewhere and is no sample.
fn is_other(stood: &[u8], sample: &[u8], u: usize) -> bool
    requires { (u < length stood.now) × (u < length sample.now) }
    ensures { result ≡ other stood.now sample.now u }
{
    if stood[u] == 1 {
        return sample[u] == 0;
    }
    false
}

// Collects the rows that stand somewhere and are no samples, in row order, and counts them.
fn collect(stood: &[u8], sample: &[u8], out: &mut [u32]) -> usize
    requires { (length sample.now ≡ length stood.now) × (length stood.now ≤ length out.old) × (length stood.now ≤ 4294967295) }
    ensures { (result ≡ length (other_rows stood.now sample.now)) × (out.new ≡ put (other_rows stood.now sample.now) out.old) }
{
    let mut k: usize = 0;
    for u in 0..stood.len() {
        if is_other(stood, sample, u) {
            out[k] = u as u32;
            k += 1;
        }
    }
    k
}

// The rows that stand somewhere and are no samples, by (time, birth), at the front of out; how many they are.
pub fn others(stood: &[u8], sample: &[u8], time: &[u32], birth: &[u32], out: &mut [u32]) -> usize
    requires { (length sample.now ≡ length stood.now) × (length time.now ≡ length stood.now) × (length birth.now ≡ length stood.now) × (length stood.now ≤ length out.old) × (length stood.now ≤ 4294967295) × Apart birth.now }
    ensures { OthersListed (age_table time.now birth.now) stood.now sample.now result out.old out.new }
{
    let k = collect(stood, sample, out);
    order::sort_rows(time, birth, birth, birth, &mut out[..k]);
    k
}

// Puts none into each cell of the node map.
fn none_kept(nodemap: &mut [u32])
    ensures { nodemap.new ≡ rows (λ u. no_row) (length nodemap.old) }
{
    nodemap.fill(meaning::MapTable::NONE);
}

// Gives each of the first n rows kept its place, counted from first. From the last back, so that a row's first place stays.
fn place(kept: &[u32], n: usize, first: usize, nodemap: &mut [u32])
    requires { (n ≤ length kept.now) × (first + n ≤ 4294967295) × Inside (length nodemap.old) (take n kept.now) }
    ensures { nodemap.new ≡ rows (placed (take n kept.now) first nodemap.old) (length nodemap.old) }
{
    for i in (0..n).rev() {
        nodemap[wide(kept[i])] = (first + i) as u32;
    }
}

// The place of each row among the rows kept, the samples' rows first and then the others, or none.
pub fn places(srow: &[u32], ns: usize, others: &[u32], no: usize, nodemap: &mut [u32])
    requires { (ns ≤ length srow.now) × (no ≤ length others.now) × (ns + no ≤ 4294967295) × Inside (length nodemap.old) (take ns srow.now) × Inside (length nodemap.old) (take no others.now) }
    ensures { nodemap.new ≡ map (row_in (take ns srow.now ++ take no others.now)) (all_rows (length nodemap.old)) }
{
    none_kept(nodemap);
    place(others, no, ns, nodemap);
    place(srow, ns, 0, nodemap);
}
