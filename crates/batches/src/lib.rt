// The rules 20 to 26 of 01's join, each as a search for the lowest row that breaks it, or none.
// What a broken row is stands in the crate meaning, specs/Join.antt.

#![tactic(auto)]

pub mod births; // rule 22, and the row and the time of a birth
pub mod edges; // rules 23 and 24
pub mod mutations; // rule 25
pub mod lengths; // rules 20 and 21: numbers alone
pub mod columns; // columns put together
pub mod above; // rule 26
pub mod whole; // 20 to 26 in their order
