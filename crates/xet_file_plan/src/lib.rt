//! The reconstruction plan of a file, as its chunks are found or stored.
#![tactic(auto)]

pub mod laws;
mod plan;
mod segments;

pub use plan::{FilePlan, PlanParts};
