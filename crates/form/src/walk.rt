// The first pass over the bytes: it only looks, and finds the rows of each kind or the refusal.
ghost use Rattle.std.specs.Prelude.{◌≡◌, ℕ, ◌+◌, ◌*◌, ◌<◌, ◌≤◌, length};
ghost use Rattle.meaning.specs.Words.{at};
ghost use Rattle.meaning.specs.Stored.{is_mark};
ghost use Rattle.form.specs.Posts.{Stretched, Stepped, KindsScanned, Scanned, EndScanned};

use crate::{Kind, Layout, Stretch};
use meaning::{EdgeTable, MutationTable, NodeTable, Refusal, SampleTable, SiteTable};

// Whether a mark stands at an offset.
pub fn is_mark(s: &[u8], place: usize, mark: [u8; 2]) -> bool
    requires { place ≤ length s.now }
    ensures { result ≡ is_mark (at mark 0) (at mark 1) s.now place }
{
    s[place..].starts_with(&mark)
}

// The whole records of one kind from an offset on, at most so many.
pub fn stretch(s: &[u8], start: usize, k: Kind) -> Stretch
    requires { start ≤ length s.now }
    ensures { Stretched (at k.mark 0) (at k.mark 1) k.size k.most s.now start result }
{
    let mut end = start;
    for count in 0..k.most {
        if !is_mark(s, end, k.mark) || s.len() - end < k.size {
            return Stretch { start, count, end };
        }
        end += k.size;
    }
    Stretch {
        start,
        count: k.most,
        end,
    }
}

// One kind from an offset on: its rows, or the refusal at the record that follows them.
pub fn kind(s: &[u8], start: usize, k: Kind) -> Result<Stretch, Refusal>
    requires { start ≤ length s.now }
    ensures { Stepped (at k.mark 0) (at k.mark 1) k.size k.most s.now start result }
{
    let rows = stretch(s, start, k);
    if !is_mark(s, rows.end, k.mark) {
        return Ok(rows);
    }
    if k.most <= rows.count {
        return Err(Refusal::RowsOver(rows.end));
    }
    Err(Refusal::BytesEnd(rows.end))
}

// The end of the file, which is EN and nothing after it.
pub fn end(s: &[u8], at: usize) -> Result<(), Refusal>
    requires { at ≤ length s.now }
    ensures { EndScanned s.now at result }
{
    if s.len() - at < 2 {
        return Err(Refusal::BytesEnd(at));
    }
    if !is_mark(s, at, *b"EN") {
        return Err(Refusal::MarkWrong(at));
    }
    if 2 < s.len() - at {
        return Err(Refusal::BytesFollow(at + 2));
    }
    Ok(())
}

// All kinds in their order, and the end of the file.
pub fn kinds(s: &[u8]) -> Result<Layout, Refusal>
    requires { 6 ≤ length s.now }
    ensures { KindsScanned s.now result }
{
    let samples = kind(s, 6, Kind::SAMPLE)?;
    let nodes = kind(s, samples.end, Kind::NODE)?;
    let edges = kind(s, nodes.end, Kind::EDGE)?;
    let sites = kind(s, edges.end, Kind::SITE)?;
    let mutations = kind(s, sites.end, Kind::MUTATION)?;
    end(s, mutations.end)?;
    Ok(Layout {
        samples,
        nodes,
        edges,
        sites,
        mutations,
    })
}

// The whole file: where its rows stand, or the refusal.
pub fn scan(s: &[u8]) -> Result<Layout, Refusal>
    ensures { Scanned s.now result }
{
    if s.len() < 2 {
        return Err(Refusal::BytesEnd(0));
    }
    if !is_mark(s, 0, *b"SQ") {
        return Err(Refusal::MarkWrong(0));
    }
    if s.len() < 6 {
        return Err(Refusal::BytesEnd(0));
    }
    kinds(s)
}
