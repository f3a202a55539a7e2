//! The settings of a manager, and the usual times of shards that expire.

/// The usual number of seconds that a shard file is kept after its expiry, `buffer` in `ManagerSettings`: seven days.
pub const MDB_SHARD_EXPIRATION_BUFFER: u64 = 604_800;

/// The usual number of seconds for which a shard is valid that is exported into a local cache: 21 days.
pub const MDB_SHARD_LOCAL_CACHE_EXPIRATION: u64 = 1_814_400;

/// The settings of a manager.
#[derive(Clone, Copy, PartialEq, Eq, Debug)]
pub struct ManagerSettings {
    /// The length in bytes up to which records become one shard file: if something is pending and the file would be
    /// longer with one more record, what is pending is written first.
    pub target: u64,
    /// The number of first words from which on the chunks of a shard are not indexed any more.
    pub index_cap: u64,
    /// The total length in bytes to which the shard files of a cache folder are pruned; 0 for no limit.
    pub cache_limit: u64,
    /// The number of seconds that a shard file is kept after its expiry.
    pub buffer: u64,
}
