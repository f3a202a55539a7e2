//! Tests of cleaning over the passes of a session.
//!
//! The crate is a program, which does nothing: see docs/DECISIONS.md.
#![tactic(auto)]

#[cfg(test)]
mod behind_tests;
#[cfg(test)]
mod sharing_tests;
#[cfg(test)]
mod single_tests;
#[cfg(test)]
mod sources;
#[cfg(test)]
mod worked_tests;
#[cfg(test)]
mod workers_tests;

fn main() {}
