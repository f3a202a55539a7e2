//! The shard format: records as rows, lookup tables, header and footer, and encoding and decoding of a shard.
#![tactic(auto)]

pub mod encoding;
pub mod header_footer;
pub mod laws;
pub mod lookup;
mod names;
mod record;
pub mod record_decoding;
pub mod row;
pub mod row_cursor;
pub mod section;
mod sha256;
pub mod shard_decoding;
pub mod shard_encoding;

pub use header_footer::{MDBShardFileFooter, MDBShardFileHeader, read_footer, read_footer_of_ends};
pub use names::{parse_shard_filename, shard_file_name, truncate_hash};
pub use record::{
    FileDataSequenceEntry, FileDataSequenceHeader, FileMetadataExt, FileVerificationEntry,
    MDBFileInfo, MDBXorbInfo, XorbChunkSequenceEntry, XorbChunkSequenceHeader,
};
pub use sha256::Sha256;
pub use shard_decoding::read_shard;
