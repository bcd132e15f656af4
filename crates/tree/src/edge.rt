// One edge enters or leaves: parents, counts, sums and the nearest standing rows below and above, with a list of the rows whose row above was
// written.
ghost use Rattle.std.specs.Prelude.{◌≡◌, true, ◌<◌, length, get_or, set};
ghost use Rattle.mend.specs.Right.{none, live};
ghost use Rattle.mend.specs.Line.{Gained, Lost};
ghost use Rattle.mend.specs.Kept.{Mended, Kept, Enters};
ghost use Rattle.mend.specs.Listing.{Listed, Noted};

use super::NONE;
use mend::turn::{gain, lose};
use mend::{alive, climb_down, climb_up};

// c, which lives and leads down to w, gets the parent p; the answer is the row where mending ends.
fn link(
    time: &[u32],
    sample: &[u8],
    parent: &mut [u32],
    count: &mut [u32],
    sum: &mut [u32],
    low: &mut [u32],
    c: u32,
    p: u32,
    w: u32,
) -> u32
    requires { Mended time.now sample.now parent.old count.old sum.old ×
        (length low.old ≡ length parent.old) ×
        Enters time.now parent.old c p ×
        (live sample.now count.old c ≡ true) }
    ensures { (parent.new ≡ set parent.old c p) ×
        Mended time.now sample.now parent.new count.new sum.new ×
        Gained sample.now parent.new count.old count.new low.old low.new p c w result }
{
    parent[c as usize] = p;
    climb_up(time, sample, parent, count, sum, low, p, c, w)
}

// c, which lives, loses its parent; the answer is the row where mending ends.
fn unlink(
    time: &[u32],
    sample: &[u8],
    parent: &mut [u32],
    count: &mut [u32],
    sum: &mut [u32],
    c: u32,
) -> u32
    requires { Mended time.now sample.now parent.old count.old sum.old × (c < length parent.old) × (live sample.now count.old c ≡ true) }
    ensures { (parent.new ≡ set parent.old c none) ×
        Mended time.now sample.now parent.new count.new sum.new ×
        Lost time.now sample.now parent.new count.old count.new (get_or parent.old c 0)
        result }
{
    let q = parent[c as usize];
    parent[c as usize] = NONE;
    climb_down(time, sample, parent, count, sum, q, c)
}

// An edge enters: c gets the parent p. The answer is the new number of listed rows.
pub fn insert_up(
    time: &[u32],
    sample: &[u8],
    parent: &mut [u32],
    count: &mut [u32],
    sum: &mut [u32],
    low: &mut [u32],
    up: &mut [u32],
    touched: &mut [u32],
    listed: &mut [u8],
    k: usize,
    c: u32,
    p: u32,
) -> usize
    requires { Kept time.now sample.now parent.old count.old sum.old low.old up.old ×
        Enters time.now parent.old c p ×
        Listed (length up.old) k touched.old listed.old }
    ensures { (parent.new ≡ set parent.old c p) ×
        Kept time.now sample.now parent.new count.new sum.new low.new up.new ×
        Noted (length up.old) up.old up.new touched.old listed.old touched.new
        listed.new k result }
{
    if alive(sample, count, c) {
        let w = low[c as usize];
        let s = link(time, sample, parent, count, sum, low, c, p, w);
        return gain(
            time, sample, parent, count, low, up, touched, listed, k, w, s,
        );
    }
    parent[c as usize] = p;
    k
}

// An edge leaves: c has no parent any more. The answer is the new number of listed rows. It mends downwards where insert_up mends upwards,
// with other columns, so they are two.
pub fn remove_up(
    time: &[u32],
    sample: &[u8],
    parent: &mut [u32],
    count: &mut [u32],
    sum: &mut [u32],
    low: &mut [u32],
    up: &mut [u32],
    touched: &mut [u32],
    listed: &mut [u8],
    k: usize,
    c: u32,
) -> usize
    requires { Kept time.now sample.now parent.old count.old sum.old low.old up.old ×
        (c < length parent.old) ×
        Listed (length up.old) k touched.old listed.old ×
        (get_or parent.old c 0 ≡ none → ⊥) }
    ensures { (parent.new ≡ set parent.old c none) ×
        Kept time.now sample.now parent.new count.new sum.new low.new up.new ×
        Noted (length up.old) up.old up.new touched.old listed.old touched.new
        listed.new k result }
{
    if alive(sample, count, c) {
        let w = low[c as usize];
        let s = unlink(time, sample, parent, count, sum, c);
        return lose(
            time, sample, parent, count, sum, low, up, touched, listed, k, w, s,
        );
    }
    parent[c as usize] = NONE;
    k
}
