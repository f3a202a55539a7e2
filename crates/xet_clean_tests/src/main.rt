//! Tests of cleaning with deduplication.
//!
//! The crate is a program, which does nothing: see docs/DECISIONS.md.
#![tactic(auto)]

#[cfg(test)]
mod cleaning_tests;
#[cfg(test)]
mod failing_tests;
#[cfg(test)]
mod hashing_tests;
#[cfg(test)]
mod random_tests;
#[cfg(test)]
mod session;
#[cfg(test)]
mod single_tests;

fn main() {}
