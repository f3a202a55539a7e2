//! Tests of a store on a disk in memory.
//!
//! They call it through a `Session`, whose calls have no contract, so that each step is proved on its own.
#![tactic(auto)]

#[cfg(test)]
mod chunking_tests;
#[cfg(test)]
mod cleaning_tests;
#[cfg(test)]
mod crash_tests;
#[cfg(test)]
mod folder_tests;
#[cfg(test)]
mod folders;
#[cfg(test)]
mod opening_tests;
#[cfg(test)]
mod pruning_tests;
#[cfg(test)]
mod run_tests;
#[cfg(test)]
mod session;
#[cfg(test)]
mod sources_tests;
#[cfg(test)]
mod xorbs;
