//! Tests of a store whose steps are recorded.
//!
//! The crate is a program, which does nothing: see docs/DECISIONS.md.
#![tactic(auto)]

#[cfg(test)]
mod files;
#[cfg(test)]
mod locked_tests;
#[cfg(test)]
mod passing_tests;
#[cfg(test)]
mod query_tests;
#[cfg(test)]
mod recorded;
#[cfg(test)]
mod step_tests;

fn main() {}
