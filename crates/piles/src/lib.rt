// Piles: any number of layers, in any order, over a base memory.
#![tactic(auto)]

pub mod pile;
