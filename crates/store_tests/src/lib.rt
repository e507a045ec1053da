#![tactic(auto)]

// Tests of the calls on the bottom memories.
#[cfg(test)]
mod bench;
#[cfg(test)]
mod format_tests;
#[cfg(test)]
mod image_tests;
#[cfg(test)]
mod recover_tests;
#[cfg(test)]
mod stores_tests;
