// The calls from C: numbers and table columns, each column a pointer and a length, and the answer as one number.
// Their names end in the number of the interface, so that a caller compiled for other columns finds no such function.

#![tactic(auto)]

pub mod clean;
pub mod genotypes;
pub mod join;
mod pack;
