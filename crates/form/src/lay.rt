// Writing: numbers, marks, records and whole columns laid into lent bytes at an offset.
ghost use Rattle.std.specs.Prelude.{◌≡◌, List, [], ◌∷◌, ℕ, ◌+◌, ◌*◌, ◌<◌, ◌≤◌, length};
ghost use Rattle.meaning.specs.Answer.{stored_limits};
ghost use Rattle.meaning.specs.Stored.{SA, ND, ED, Si, MU, bytes_of, record_at, records_from};
ghost use Rattle.form.specs.Posts.{lay};

use meaning::columns::{Ages, EdgeColumns, MutationColumns, SiteColumns};

// A number in one byte, which is the byte of its form.
pub fn put8(at: usize, v: u8, out: &mut [u8])
    requires { at + 1 ≤ length out.old }
    ensures { (out.new ≡ lay at (v ∷ []) out.old) × (bytes_of 1 v ≡ v ∷ []) }
{
    out[at] = v;
}

// The low two bytes of a number.
pub fn put16(at: usize, v: u32, out: &mut [u8])
    requires { at + 2 ≤ length out.old }
    ensures { out.new ≡ lay at (bytes_of 2 v) out.old }
{
    out[at..at + 2].copy_from_slice(&v.to_le_bytes()[..2]);
}

// A number in four bytes.
pub fn put32(at: usize, v: u32, out: &mut [u8])
    requires { at + 4 ≤ length out.old }
    ensures { out.new ≡ lay at (bytes_of 4 v) out.old }
{
    out[at..at + 4].copy_from_slice(&v.to_le_bytes());
}

// A mark.
pub fn mark(at: usize, mark: [u8; 2], out: &mut [u8])
    requires { at + 2 ≤ length out.old }
    ensures { out.new ≡ lay at mark out.old }
{
    out[at..at + 2].copy_from_slice(&mark);
}

// The first record: its mark and L.
pub fn head(len: u32, out: &mut [u8])
    requires { 6 ≤ length out.old }
    ensures { out.new ≡ lay 0 (83 ∷ 81 ∷ bytes_of 4 len) out.old }
{
    mark(0, *b"SQ", out);
    put32(2, len, out);
}

// One sample's record.
fn sample_row(at: usize, birth: u32, out: &mut [u8])
    requires { at + 6 ≤ length out.old }
    ensures { out.new ≡ lay at (record_at (SA stored_limits) ((birth ∷ []) ∷ []) 0) out.old }
{
    let p = at + 2;
    mark(at, *b"SA", out);
    put32(p, birth, out);
}

// The records of all samples; the offset after them. There is one loop for each kind, since each has its own columns and widths.
pub fn samples(birth: &[u32], start: usize, out: &mut [u8]) -> usize
    requires { start + length birth.now * 6 ≤ length out.old }
    ensures { (result ≡ start + length birth.now * 6) × (out.new ≡ lay start (records_from (SA stored_limits) (birth.now ∷ []) 0 (length birth.now)) out.old) }
{
    let mut at = start;
    for i in 0..birth.len() {
        sample_row(at, birth[i], out);
        at += 6;
    }
    at
}

// The record of node i.
fn node_row(at: usize, ages: Ages, i: usize, out: &mut [u8])
    requires { (at + 10 ≤ length out.old) × (i < length ages.time.now) }
    ensures { out.new ≡ lay at (record_at (ND stored_limits) (ages.entry.time.now ∷ ages.entry.birth.now ∷ []) i) out.old }
{
    let p = at + 2;
    let q = p + 4;
    mark(at, *b"ND", out);
    put32(p, ages.time[i], out);
    put32(q, ages.birth[i], out);
}

// The records of all nodes; the offset after them.
pub fn nodes(ages: Ages, start: usize, out: &mut [u8]) -> usize
    requires { start + length ages.time.now * 10 ≤ length out.old }
    ensures { (result ≡ start + length ages.entry.time.now * 10) × (out.new ≡ lay start (records_from (ND stored_limits) (ages.entry.time.now ∷ ages.entry.birth.now ∷ []) 0 (length ages.entry.time.now)) out.old) }
{
    let mut at = start;
    for i in 0..ages.time.len() {
        node_row(at, ages, i, out);
        at += 10;
    }
    at
}

// The record of edge i.
fn edge_row(at: usize, edges: EdgeColumns, i: usize, out: &mut [u8])
    requires { (at + 14 ≤ length out.old) × (i < length edges.left.now) }
    ensures { out.new ≡ lay at (record_at (ED 2 stored_limits) (edges.entry.left.now ∷ edges.entry.right.now ∷ edges.entry.parent.now ∷ edges.entry.child.now ∷ []) i) out.old }
{
    let p = at + 2;
    let q = p + 4;
    let r = q + 4;
    let s = r + 2;
    mark(at, *b"ED", out);
    put32(p, edges.left[i], out);
    put32(q, edges.right[i], out);
    put16(r, edges.parent[i], out);
    put16(s, edges.child[i], out);
}

// The records of all edges; the offset after them.
pub fn edges(edges: EdgeColumns, start: usize, out: &mut [u8]) -> usize
    requires { start + length edges.left.now * 14 ≤ length out.old }
    ensures { (result ≡ start + length edges.entry.left.now * 14) × (out.new ≡ lay start (records_from (ED 2 stored_limits) (edges.entry.left.now ∷ edges.entry.right.now ∷ edges.entry.parent.now ∷ edges.entry.child.now ∷ []) 0 (length edges.entry.left.now)) out.old) }
{
    let mut at = start;
    for i in 0..edges.left.len() {
        edge_row(at, edges, i, out);
        at += 14;
    }
    at
}

// The record of site i.
fn site_row(at: usize, sites: SiteColumns, i: usize, out: &mut [u8])
    requires { (at + 7 ≤ length out.old) × (i < length sites.position.now) }
    ensures { out.new ≡ lay at (record_at (Si stored_limits) (sites.entry.position.now ∷ sites.entry.ancestral.now ∷ []) i) out.old }
{
    let p = at + 2;
    let q = p + 4;
    mark(at, *b"SI", out);
    put32(p, sites.position[i], out);
    put8(q, sites.ancestral[i], out);
}

// The records of all sites; the offset after them.
pub fn sites(sites: SiteColumns, start: usize, out: &mut [u8]) -> usize
    requires { start + length sites.position.now * 7 ≤ length out.old }
    ensures { (result ≡ start + length sites.entry.position.now * 7) × (out.new ≡ lay start (records_from (Si stored_limits) (sites.entry.position.now ∷ sites.entry.ancestral.now ∷ []) 0 (length sites.entry.position.now)) out.old) }
{
    let mut at = start;
    for i in 0..sites.position.len() {
        site_row(at, sites, i, out);
        at += 7;
    }
    at
}

// The record of mutation i.
fn mutation_row(at: usize, mutations: MutationColumns, i: usize, out: &mut [u8])
    requires { (at + 7 ≤ length out.old) × (i < length mutations.site.now) }
    ensures { out.new ≡ lay at (record_at (MU 2 stored_limits) (mutations.entry.site.now ∷ mutations.entry.node.now ∷ mutations.entry.derived.now ∷ []) i) out.old }
{
    let p = at + 2;
    let q = p + 2;
    let r = q + 2;
    mark(at, *b"MU", out);
    put16(p, mutations.site[i], out);
    put16(q, mutations.node[i], out);
    put8(r, mutations.derived[i], out);
}

// The records of all mutations; the offset after them.
pub fn mutations(mutations: MutationColumns, start: usize, out: &mut [u8]) -> usize
    requires { start + length mutations.site.now * 7 ≤ length out.old }
    ensures { (result ≡ start + length mutations.entry.site.now * 7) × (out.new ≡ lay start (records_from (MU 2 stored_limits) (mutations.entry.site.now ∷ mutations.entry.node.now ∷ mutations.entry.derived.now ∷ []) 0 (length mutations.entry.site.now)) out.old) }
{
    let mut at = start;
    for i in 0..mutations.site.len() {
        mutation_row(at, mutations, i, out);
        at += 7;
    }
    at
}
