// The session of restart, format and the cut point; and what every session has: denials, lines, turns, and a run of them.
#![tactic(auto)]

pub mod command;
pub mod denial;
pub mod line;
pub mod session;
pub mod state;
pub mod turn;
