// What a panel's two lists are refused for, and its blocks of bytes.

#![tactic(auto)]

pub mod block;
pub mod lists;
