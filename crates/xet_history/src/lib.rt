//! The core of a store as plain lists, its steps, and the history that records them: definitions, and theorems about them.
#![tactic(auto)]

mod entry;
pub mod laws;

pub use entry::{ChunkList, Entry, HashList, Run, StepKind};
