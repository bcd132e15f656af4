// The column of nearest standing rows above, written one row at a time with a list of the rows written, each once: a row that is listed has a
// mark.
ghost use Rattle.std.specs.Prelude.{◌≡◌, ◌<◌, length, slice_set};
ghost use Rattle.mend.specs.Right.{none};
ghost use Rattle.mend.specs.Listing.{Listed, Noted};

use super::NONE;

// Every write of the column `up` goes through here: the row v is listed, and the answer is the new number of listed rows.
pub fn put_up(
    up: &mut [u32],
    touched: &mut [u32],
    listed: &mut [u8],
    k: usize,
    v: u32,
    x: u32,
) -> usize
    requires { (v < length up.old) × Listed (length up.old) k touched.old listed.old }
    ensures { (up.new ≡ slice_set up.old v x) × Noted (length up.old) up.old up.new touched.old listed.old touched.new listed.new k result }
{
    up[v as usize] = x;
    if 0 < listed[v as usize] {
        return k;
    }
    listed[v as usize] = 1;
    touched[k] = v;
    k + 1
}

// s comes to stand above w and z, and below o.
pub fn seat(
    up: &mut [u32],
    touched: &mut [u32],
    listed: &mut [u8],
    k: usize,
    w: u32,
    z: u32,
    s: u32,
    o: u32,
) -> usize
    requires { (w < length up.old) × (z < length up.old) × (s < length up.old) × Listed (length up.old) k touched.old listed.old }
    ensures { (up.new ≡ slice_set (slice_set (slice_set up.old w s) z s) s o) × Noted (length up.old) up.old up.new touched.old listed.old touched.new listed.new k result }
{
    let a = put_up(up, touched, listed, k, w, s);
    let b = put_up(up, touched, listed, a, z, s);
    put_up(up, touched, listed, b, s, o)
}

// s ceases to stand: z comes below o, and nothing is above w.
pub fn cede(
    up: &mut [u32],
    touched: &mut [u32],
    listed: &mut [u8],
    k: usize,
    w: u32,
    z: u32,
    s: u32,
    o: u32,
) -> usize
    requires { (w < length up.old) × (z < length up.old) × (s < length up.old) × Listed (length up.old) k touched.old listed.old }
    ensures { (up.new ≡ slice_set (slice_set (slice_set up.old z o) s none) w none) × Noted (length up.old) up.old up.new touched.old listed.old touched.new listed.new k result }
{
    let a = put_up(up, touched, listed, k, z, o);
    let b = put_up(up, touched, listed, a, s, NONE);
    put_up(up, touched, listed, b, w, NONE)
}
