#![tactic(auto)]

// Tests of the file calls.
#[cfg(test)]
mod bench;
#[cfg(test)]
mod cut_tests;
#[cfg(test)]
mod directory_tests;
#[cfg(test)]
mod name_tests;
#[cfg(test)]
mod pattern;
#[cfg(test)]
mod read_tests;
#[cfg(test)]
mod refusal_tests;
#[cfg(test)]
mod shorten_tests;
#[cfg(test)]
mod stores_tests;
