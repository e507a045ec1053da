// Reading an image from any memory, and the check that finds the first rule that fails.
#![tactic(auto)]

pub mod directory;
mod entry;
mod file;
mod files;
pub mod image;
mod maps;
mod reading;
pub mod refusal;
pub mod size;
mod used;
