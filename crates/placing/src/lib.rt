// The mutations before the next change get their nearest standing row, and those that get one are listed.

#![tactic(auto)]

ghost use Rattle.std.specs.Prelude.{◌≡◌, ℕ, ◌<◌, length, IfSome, unwrap_or};
ghost use Rattle.bridge.specs.Parents.{no_row};
ghost use Rattle.mend.specs.Kept.{Mended, LowOk};
ghost use Rattle.placing.specs.Placing.{Taken, Placeable, Placed};

// How far the mutations are placed, and how many of them move.
#[derive(Clone, Copy, Debug, PartialEq, Eq)]
pub struct Marks {
    pub placed: usize,
    pub kept: usize,
}

// Lists mutation m, which goes to the row w, while there is a cell; nothing where w is none. The answer is the new number of those that move.
fn keep(mrow: &mut [u32], mlow: &mut [u32], k: usize, m: u32, w: Option<u32>) -> usize
    requires { (length mlow.old ≡ length mrow.old) × (k < 4294967295) × IfSome w (λ r. r < no_row) }
    ensures { Taken m (unwrap_or w no_row) (record { row = mrow.old; low = mlow.old; count = k }) (record { row = mrow.new; low = mlow.new; count = result }) }
{
    let Some(r) = w else {
        return k;
    };
    if mrow.len() <= k {
        return k + 1;
    }
    mrow[k] = m;
    mlow[k] = r;
    k + 1
}

// Gives each mutation from m0 on whose site lies before next its nearest standing row; the answer has the first of the others.
pub fn place(
    time: &[u32],
    sample: &[u8],
    par: &[u32],
    count: &[u32],
    sum: &[u32],
    low: &[u32],
    position: &[u32],
    site: &[u32],
    node: &[u32],
    mrow: &mut [u32],
    mlow: &mut [u32],
    m0: usize,
    k0: usize,
    next: u32,
) -> Marks
    requires { Mended time.now sample.now par.now count.now sum.now × LowOk sample.now par.now count.now low.now × Placeable position.now site.now node.now (record { row = mrow.old; low = mlow.old; count = k0 }) (length par.now) m0 }
    ensures { Placed sample.now par.now position.now site.now node.now next (record { row = mrow.old; low = mlow.old; count = k0 }) m0 (record { row = mrow.new; low = mlow.new; count = result.kept }) result.placed }
{
    let mut k = k0;
    for m in m0..site.len() {
        let s = site[m];
        if next <= position[s as usize] {
            return Marks { placed: m, kept: k };
        }
        let w = tree::low_at(time, sample, par, count, sum, low, node[m]);
        k = keep(mrow, mlow, k, m as u32, w);
    }
    Marks {
        placed: site.len(),
        kept: k,
    }
}
