// 01: "ancestral segments: a left, a right and an output row". The output row at a position: searched on columns, and on a lent slice of segments.

#![tactic(auto)]

ghost use Rattle.std.specs.Prelude.{◌≡◌};
ghost use Rattle.segments.specs.Search.{covers, first_row, row_at};
ghost use Rattle.segments.specs.Columns.{segments_of};

use meaning::MapTable;
use runs::Segment;

// Whether a segment from left to right holds x: left counts, right does not.
pub fn holds(left: u32, right: u32, x: u32) -> bool
    ensures { result ≡ covers left right x }
{
    left <= x && x < right
}

// The output row of the first segment that holds x, of the segments that three columns make; their number is that of the shortest column.
pub fn find_in_columns(left: &[u32], right: &[u32], row: &[u32], x: u32) -> Option<u32>
    ensures { result ≡ first_row (segments_of left.now right.now row.now) x }
{
    let n = left.len().min(right.len()).min(row.len());
    for i in 0..n {
        if holds(left[i], right[i], x) {
            return Some(row[i]);
        }
    }
    None
}

// The same of a lent slice of segments.
pub fn find(s: &[Segment], x: u32) -> Option<u32>
    ensures { result ≡ first_row s.now x }
{
    for seg in s {
        if holds(seg.left, seg.right, x) {
            return Some(seg.row);
        }
    }
    None
}

// The same, called from C with a pointer to the segments and their number: a row that means none where no segment holds x.
#[unsafe(no_mangle)]
pub extern "C" fn ffr_find_segment(s: &[Segment], x: u32) -> u32
    ensures { result ≡ row_at s.now x }
{
    find(s, x).unwrap_or(MapTable::NONE)
}
