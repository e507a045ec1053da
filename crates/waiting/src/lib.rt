// The words that wait in a cache.
#![tactic(auto)]

pub mod words;
