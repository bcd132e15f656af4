// The second pass: each column is filled from its field of the records.
ghost use Rattle.std.specs.Prelude.{◌≡◌, ℕ, ◌+◌, ◌*◌, ◌<◌, ◌≤◌, length};
ghost use Rattle.meaning.specs.Words.{rows};
ghost use Rattle.meaning.specs.Answer.{put};
ghost use Rattle.meaning.specs.Stored.{number};
ghost use Rattle.form.specs.Posts.{Fields, Records};

// The number in two bytes.
fn get16(s: &[u8], at: usize) -> u32
    requires { at + 2 ≤ length s.now }
    ensures { result ≡ number 2 s.now at }
{
    u32::from(u16::from_le_bytes([s[at], s[at + 1]]))
}

// The number in four bytes.
pub fn get32(s: &[u8], at: usize) -> u32
    requires { at + 4 ≤ length s.now }
    ensures { result ≡ number 4 s.now at }
{
    u32::from_le_bytes([s[at], s[at + 1], s[at + 2], s[at + 3]])
}

// A column from a field of four bytes; the first stands at an offset, each next one a step further on. There is one function for
// each width, since fields of two and of four bytes fill cells of one type, which so does not tell the width.
pub fn fill32(s: &[u8], start: usize, step: usize, n: usize, out: &mut [u32])
    requires { Fields 4 s.now start step n × (n ≤ length out.old) }
    ensures { out.new ≡ put (rows (λ i. number 4 s.now (start + i * step)) n) out.old }
{
    let mut at = start;
    for i in 0..n {
        out[i] = get32(s, at);
        at += step;
    }
}

// The same from a field of two bytes.
pub fn fill16(s: &[u8], start: usize, step: usize, n: usize, out: &mut [u32])
    requires { Fields 2 s.now start step n × (n ≤ length out.old) }
    ensures { out.new ≡ put (rows (λ i. number 2 s.now (start + i * step)) n) out.old }
{
    let mut at = start;
    for i in 0..n {
        out[i] = get16(s, at);
        at += step;
    }
}

// The same from a field of one byte.
pub fn fill8(s: &[u8], start: usize, step: usize, n: usize, out: &mut [u8])
    requires { Fields 1 s.now start step n × (n ≤ length out.old) }
    ensures { out.new ≡ put (rows (λ i. number 1 s.now (start + i * step)) n) out.old }
{
    let mut at = start;
    for i in 0..n {
        out[i] = s[at];
        at += step;
    }
}

// The samples, from n records that start at an offset.
pub fn samples(s: &[u8], start: usize, n: usize, birth: &mut [u32])
    requires { Records 6 s.now start n × (n ≤ length birth.old) }
    ensures { birth.new ≡ put (rows (λ i. number 4 s.now (start + 2 + i * 6)) n) birth.old }
{
    let a = start + 2;
    fill32(s, a, 6, n, birth);
}

// The nodes' columns, from n records that start at an offset.
pub fn nodes(s: &[u8], start: usize, n: usize, time: &mut [u32], birth: &mut [u32])
    requires { Records 10 s.now start n × (n ≤ length time.old) × (n ≤ length birth.old) }
    ensures { (time.new ≡ put (rows (λ i. number 4 s.now (start + 2 + i * 10)) n) time.old) × (birth.new ≡ put (rows (λ i. number 4 s.now (start + 2 + 4 + i * 10)) n) birth.old) }
{
    let a = start + 2;
    let b = a + 4;
    fill32(s, a, 10, n, time);
    fill32(s, b, 10, n, birth);
}

// The edges' columns.
pub fn edges(
    s: &[u8],
    start: usize,
    n: usize,
    left: &mut [u32],
    right: &mut [u32],
    parent: &mut [u32],
    child: &mut [u32],
)
    requires { Records 14 s.now start n × (n ≤ length left.old) × (n ≤ length right.old) × (n ≤ length parent.old) × (n ≤ length child.old) }
    ensures { (left.new ≡ put (rows (λ i. number 4 s.now (start + 2 + i * 14)) n) left.old) × (right.new ≡ put (rows (λ i. number 4 s.now (start + 2 + 4 + i * 14)) n) right.old) × (parent.new ≡ put (rows (λ i. number 2 s.now (start + 2 + 4 + 4 + i * 14)) n) parent.old) × (child.new ≡ put (rows (λ i. number 2 s.now (start + 2 + 4 + 4 + 2 + i * 14)) n) child.old) }
{
    let a = start + 2;
    let b = a + 4;
    let c = b + 4;
    let d = c + 2;
    fill32(s, a, 14, n, left);
    fill32(s, b, 14, n, right);
    fill16(s, c, 14, n, parent);
    fill16(s, d, 14, n, child);
}

// The sites' columns.
pub fn sites(s: &[u8], start: usize, n: usize, position: &mut [u32], ancestral: &mut [u8])
    requires { Records 7 s.now start n × (n ≤ length position.old) × (n ≤ length ancestral.old) }
    ensures { (position.new ≡ put (rows (λ i. number 4 s.now (start + 2 + i * 7)) n) position.old) × (ancestral.new ≡ put (rows (λ i. number 1 s.now (start + 2 + 4 + i * 7)) n) ancestral.old) }
{
    let a = start + 2;
    let b = a + 4;
    fill32(s, a, 7, n, position);
    fill8(s, b, 7, n, ancestral);
}

// The mutations' columns.
pub fn mutations(
    s: &[u8],
    start: usize,
    n: usize,
    site: &mut [u32],
    node: &mut [u32],
    derived: &mut [u8],
)
    requires { Records 7 s.now start n × (n ≤ length site.old) × (n ≤ length node.old) × (n ≤ length derived.old) }
    ensures { (site.new ≡ put (rows (λ i. number 2 s.now (start + 2 + i * 7)) n) site.old) × (node.new ≡ put (rows (λ i. number 2 s.now (start + 2 + 2 + i * 7)) n) node.old) × (derived.new ≡ put (rows (λ i. number 1 s.now (start + 2 + 2 + 2 + i * 7)) n) derived.old) }
{
    let a = start + 2;
    let b = a + 2;
    let c = b + 2;
    fill16(s, a, 7, n, site);
    fill16(s, b, 7, n, node);
    fill8(s, c, 7, n, derived);
}
