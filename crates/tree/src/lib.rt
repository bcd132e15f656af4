// The tree at a position, kept by local repair while edges enter and leave: each row's parent, the number and the wrapping sum
// of its live children, and the nearest standing rows below and above. Which rows live and stand is in crate `mend`.

#![tactic(auto)]

mod along;
mod edge;
mod place;

pub use along::{Cursor, advance, next_change};
pub use mend::NONE;
pub use place::{low_at, start};
