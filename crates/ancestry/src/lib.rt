// The parent of a row at a position, and how far it holds: the one place of the code that finds a parent among edges.

#![tactic(auto)]

pub mod edge_index; // what a parent is looked up in
pub mod index; // the end of each row's edges among the edges by child
pub mod lookup; // a row's parent at a position, and how far it holds

// A column with a parent row for each node row.
#[derive(Drop)]
pub struct ParentColumn {
    pub rows: usize,
}

impl ParentColumn {
    // The cell of a row that has no parent, since a column holds plain numbers: no table is so long.
    pub const NONE: u32 = 4294967295;
}

// The parent row at a position, or none, and the end of the stretch in which it is so.
#[derive(Drop)]
pub struct Stretch {
    pub parent: u32,
    pub end: u32,
}
