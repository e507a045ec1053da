// A file store in a memory that holds without power: the calls, over any memory.
#![tactic(auto)]

pub mod change;
mod file;
pub mod format;
mod log_entry;
pub mod names;
mod open;
mod phase;
pub mod read;
pub mod recover;
pub mod shorten;
pub mod stores;
