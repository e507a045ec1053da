// A life of a store: a list of calls, one after another, on a memory that is formatted first.
#![tactic(auto)]

pub mod answer;
pub mod call;
pub mod live;
mod step;
pub mod witness;
