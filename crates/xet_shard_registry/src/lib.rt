//! The registered shards of a store, in order of registration, and the places of their chunks by key.
#![tactic(auto)]

mod collection;
mod collections;
mod registry;

pub use registry::ShardRegistry;
pub use xet_shard_index::WordPlace;
