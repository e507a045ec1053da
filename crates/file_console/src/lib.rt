// The session with recovery and the file commands: commands from bytes, the state that allows them, and what they give.
#![tactic(auto)]

pub mod answer;
pub mod command;
pub mod state;
