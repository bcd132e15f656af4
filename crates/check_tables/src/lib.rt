// Tables for the programs that run the check, the allele call and the panel: all columns in two blocks, sound tables of any size,
// and the three calls on what stands there.

#![tactic(auto)]

pub mod answer;
pub mod base;
pub mod call;
pub mod columns;
