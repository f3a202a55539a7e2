//! Merging of the shard files of a directory.
#![tactic(auto)]

mod adding;
mod consolidation;
mod group;
pub mod laws;
mod merge;
mod order;
mod progress;
mod reading;
mod taking;
mod writing;

pub use consolidation::consolidate_shards_in_directory;
pub use merge::{ShardMergeResult, merge_shards};
