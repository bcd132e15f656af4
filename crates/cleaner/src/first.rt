// The lists of the first sweep, as they are read.
ghost use Rattle.std.specs.Prelude.{◌≡◌, length};

use meaning::columns::EdgeColumns;

// What the first sweep has listed, as far as its columns had room: the edges that it made, and the mutations that it moved, each with the row
// where it goes. The counts go on where the columns end.
#[derive(Clone, Copy)]
pub struct FirstSweep<'a> {
    pub edges: EdgeColumns<'a>,
    pub row: &'a [u32],
    pub low: &'a [u32],
    pub made: usize,
    pub moved: usize,
    pub ghost even: { length low.now ≡ length row.now },
}
