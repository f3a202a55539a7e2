//! The guard against fragmentation of a file's plan.
#![tactic(auto)]

pub mod laws;
mod prevention;
#[cfg(test)]
mod tests;

pub use prevention::DefragPrevention;
