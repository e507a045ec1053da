// Layers over any memory: a cache, and a part.
#![tactic(auto)]

pub mod admit;
pub mod cache;
pub mod outside;
pub mod part;
