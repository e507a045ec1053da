// The two bottom memories of a bench: the byte image and the lagging memory.
#![tactic(auto)]

pub mod byte_image;
pub mod lagging;
pub mod power;
