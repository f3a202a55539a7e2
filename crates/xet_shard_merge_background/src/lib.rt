//! Merging of the shard files of a directory on a worker thread. That a worker does the work is by the code: no contract
//! states it.
#![tactic(auto)]

mod background;

pub use background::merge_shards_background;
