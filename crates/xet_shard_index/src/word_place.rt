//! The place of a chunk.

/// Where a chunk is: in which shard of an index, and where there.
#[derive(Clone, Copy, PartialEq, Eq, Debug)]
pub struct WordPlace {
    /// The number of the shard.
    pub shard: u32,
    /// The row of its xorb's header, from the start of the section.
    pub row: u32,
    /// Its index in the xorb.
    pub chunk: u16,
}
