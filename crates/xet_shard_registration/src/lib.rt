//! Registration of shard files: those of a list, of paths, and of a folder.
#![tactic(auto)]

mod refreshing;
mod registration;

pub use refreshing::{register_directory, register_paths};
pub use registration::{register_shards, replace_shards};
