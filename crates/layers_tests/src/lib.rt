#![tactic(auto)]

// Tests of the layers over the bottom memories.
#[cfg(test)]
mod image_tests;
#[cfg(test)]
mod pile_tests;
#[cfg(test)]
mod steps;
