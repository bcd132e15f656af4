// The lowest row that is related with an earlier one, in n log n steps: the rows are lined up by a sort, so that related ones are neighbours,
// and the bound below which some row is related is found by halving.
ghost use Rattle.std.specs.Prelude.{◌≡◌, Bool, true, ℕ, ◌<◌, ◌≤◌, length};
ghost use Rattle.meaning.specs.Words.{lowest_row, any_below};
ghost use Rattle.rules.specs.Lined.{Lined, related};

use crate::places::next_below;

// A relation of rows, as that of rows with one number.
pub trait Relation {
    // rows j and i are related
    ghost relates: { Self → ℕ → ℕ → Bool };

    // there are rows so many
    ghost many: { Self → ℕ };

    // Whether rows j and i are related.
    fn relate(&self, j: u32, i: u32) -> bool
        requires { (j < many self.now) × (i < many self.now) }
        ensures { result ≡ relates self.now j i };

    ghost even: { (r : Self) (j i : ℕ) → relates r j i ≡ true → relates r i j ≡ true };
}

// Whether some row below k is related with an earlier one: of the rows below k in order, each is compared with the next.
fn some_related<R: Relation>(rows: &R, idx: &[u32], k: usize) -> bool
    requires { Lined (R.relates rows.now) (R.many rows.now) idx.now × (k ≤ R.many rows.now) }
    ensures { result ≡ any_below (related (R.relates rows.now)) k }
{
    let mut p = next_below(idx, k, 0);
    // The walk goes from one row below k to the next, so it is a while.
    while p < idx.len() {
        let q = next_below(idx, k, p + 1);
        if idx.len() <= q {
            return false;
        }
        if rows.relate(idx[p], idx[q]) {
            return true;
        }
        p = q;
    }
    false
}

// The lowest row that is related with an earlier one.
pub fn first_lined<R: Relation>(rows: &R, idx: &[u32]) -> Option<usize>
    requires { Lined (R.relates rows.now) (R.many rows.now) idx.now }
    ensures { result ≡ lowest_row (related (R.relates rows.now)) (R.many rows.now) }
{
    if !some_related(rows, idx, idx.len()) {
        return None;
    }
    let mut low = 0;
    let mut high = idx.len();
    // Halving moves two bounds and counts nothing, so it is a while.
    while low < high {
        let m = order::ranks::middle(low, high);
        if some_related(rows, idx, m + 1) {
            high = m;
        } else {
            low = m + 1;
        }
    }
    Some(low)
}
