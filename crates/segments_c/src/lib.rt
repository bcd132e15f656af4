// The search among segments as a static library, for C.

#![tactic(auto)]

ghost use Rattle.std.specs.Prelude.{◌≡◌};
ghost use Rattle.segments.specs.Search.{row_at};

use meaning::MapTable;
use runs::Segment;

// The output row of the first segment that holds x, called from C with a pointer to the segments and their number: a row that means none where
// no segment holds x.
#[unsafe(no_mangle)]
pub extern "C" fn ffr_find_segment(s: &[Segment], x: u32) -> u32
    ensures { result ≡ row_at s.now x }
{
    segments::find(s, x).unwrap_or(MapTable::NONE)
}
