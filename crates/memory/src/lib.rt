// A memory of words that holds without power: what it promises, and a cut point for benches.
#![tactic(auto)]

pub mod cut_point;
pub mod fault;
pub mod memory;
pub mod word;
