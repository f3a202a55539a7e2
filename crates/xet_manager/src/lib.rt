//! The manager of the shards of a folder: those registered, and what is pending. Re-exports shard files, their readers,
//! their merging, and the index of first words.
#![tactic(auto)]

mod manager;
mod room;
mod settings;

pub use manager::{FileReconstructor, ShardFileManager};
pub use settings::{
    MDB_SHARD_EXPIRATION_BUFFER, MDB_SHARD_LOCAL_CACHE_EXPIRATION, ManagerSettings,
};
pub use xet_codec::FileReader as ShardReader;
pub use xet_hash::Refused;
pub use xet_shard_directory::{MDBShardFile, NoReader, ReaderIfPresent};
pub use xet_shard_index::{PackedIndex, Steps, WordPlace, WordRun};
pub use xet_shard_merge::{ShardMergeResult, consolidate_shards_in_directory, merge_shards};
pub use xet_shard_merge_background::merge_shards_background;
