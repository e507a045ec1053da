// How the words of a memory hold the files: names, root words, places in a file, the log entry, and a set of blocks.
#![tactic(auto)]

pub mod block_set;
pub mod log;
pub mod name;
pub mod place;
pub mod root;
