//! Shards in memory and behind readers: reading part by part, queries, export under a key, union.
//! It also exports the types and functions of the shard format.
#![tactic(auto)]

mod export;
mod in_memory;
mod info;
pub mod laws;
mod query;
mod reader;
mod union;
mod write;

pub use in_memory::MDBInMemoryShard;
pub use info::MDBShardInfo;
pub use query::run::kept_hash;
pub use union::shard_set_union;
pub use write::write_shard;
pub use xet_shard_format::{
    FileDataSequenceEntry, FileDataSequenceHeader, FileMetadataExt, FileVerificationEntry,
    MDBFileInfo, MDBShardFileFooter, MDBShardFileHeader, MDBXorbInfo, Sha256,
    XorbChunkSequenceEntry, XorbChunkSequenceHeader, parse_shard_filename, read_footer,
    read_footer_of_ends, read_shard, shard_file_name, truncate_hash,
};
