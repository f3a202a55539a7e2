//! Whether a file may be recorded over listed xorbs.
#![tactic(auto)]

mod completing;
pub mod laws;
mod ranges;
mod resolving;

pub use completing::can_complete;
