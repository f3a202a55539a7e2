//! The type of a shard behind a reader.

use xet_shard_format::header_footer::{MDBShardFileFooter, MDBShardFileHeader};

/// The header and the footer of a shard. Its methods read the other parts from a reader.
#[derive(Clone, Copy, PartialEq, Eq, Debug, Default)]
pub struct MDBShardInfo {
    /// The header: the first 48 bytes.
    pub header: MDBShardFileHeader,
    /// The footer: the last 200 bytes.
    pub metadata: MDBShardFileFooter,
}
