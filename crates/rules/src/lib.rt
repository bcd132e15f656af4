// The rules of 01's check, each as a search for the lowest row that breaks it; None where no row does.
// What a broken row is stands in the crate meaning, specs/Check.antt.

#![tactic(auto)]

pub mod columns; // rules 4, 8, 11 and 12: a column with itself, or with another
pub mod edges; // rules 5 to 7
pub mod shared; // rule 7, in n log n steps, and the edges by child
pub mod mutations; // rule 9
pub mod lengths; // rules 1 to 3: numbers alone
mod places; // a step among rows lined up by a sort
mod lined; // the lowest row that is related with an earlier one, in n log n steps
mod repeated; // rules 4 and 12: rows with one number
