//! `DeduplicationMetrics`.

ghost use Rattle.std.specs.Prelude.{◌≡◌};
ghost use Rattle.xet_aggregate.specs.Metrics.{AreCounts, added, zeros};

use serde::{Deserialize, Serialize};

/// What deduplication did with the chunks of some files. The JSON is an object with these fields, in this order.
#[derive(Clone, Copy, PartialEq, Eq, Debug, Serialize, Deserialize)]
pub struct DeduplicationMetrics {
    /// Bytes of all chunks: the deduplicated and the new ones.
    pub total_bytes: u64,
    /// Bytes of the chunks that were stored already and are used where they are.
    pub deduped_bytes: u64,
    /// Bytes of the chunks that are stored anew.
    pub new_bytes: u64,
    /// Bytes of the runs that a second pass of queries found, used or not.
    pub deduped_bytes_by_global_dedup: u64,
    /// Bytes of the runs of stored chunks that were rejected to prevent fragmentation. A chunk counts once for each
    /// such run that it is in.
    pub defrag_prevented_dedup_bytes: u64,
    /// Number of all chunks: the deduplicated and the new ones.
    pub total_chunks: u64,
    /// Number of chunks that were stored already and are used where they are.
    pub deduped_chunks: u64,
    /// Number of chunks that are stored anew.
    pub new_chunks: u64,
    /// Number of chunks of the runs that a second pass of queries found, used or not.
    pub deduped_chunks_by_global_dedup: u64,
    /// Number of chunks of the runs of stored chunks that were rejected to prevent fragmentation. A chunk counts
    /// once for each such run that it is in.
    pub defrag_prevented_dedup_chunks: u64,
    /// Bytes of xorbs that were uploaded. Stays 0 in a local store.
    pub xorb_bytes_uploaded: u64,
    /// Bytes of shards that were uploaded. Stays 0 in a local store.
    pub shard_bytes_uploaded: u64,
    /// Bytes that were uploaded. Stays 0 in a local store.
    pub total_bytes_uploaded: u64,
}

impl Default for DeduplicationMetrics {
    ghost is_default = { λ m. m ≡ zeros };

    /// All counts are 0.
    fn default() -> DeduplicationMetrics {
        DeduplicationMetrics {
            total_bytes: 0,
            deduped_bytes: 0,
            new_bytes: 0,
            deduped_bytes_by_global_dedup: 0,
            defrag_prevented_dedup_bytes: 0,
            total_chunks: 0,
            deduped_chunks: 0,
            new_chunks: 0,
            deduped_chunks_by_global_dedup: 0,
            defrag_prevented_dedup_chunks: 0,
            xorb_bytes_uploaded: 0,
            shard_bytes_uploaded: 0,
            total_bytes_uploaded: 0,
        }
    }
}

impl DeduplicationMetrics {
    /// Adds each count of `other`. The caller ensures that each sum is below 2^64.
    pub fn merge_in(&mut self, other: &DeduplicationMetrics)
        requires { AreCounts (added self.old other.now) }
        ensures { self.new ≡ added self.old other.now }
    {
        self.total_bytes += other.total_bytes;
        self.deduped_bytes += other.deduped_bytes;
        self.new_bytes += other.new_bytes;
        self.deduped_bytes_by_global_dedup += other.deduped_bytes_by_global_dedup;
        self.defrag_prevented_dedup_bytes += other.defrag_prevented_dedup_bytes;
        self.total_chunks += other.total_chunks;
        self.deduped_chunks += other.deduped_chunks;
        self.new_chunks += other.new_chunks;
        self.deduped_chunks_by_global_dedup += other.deduped_chunks_by_global_dedup;
        self.defrag_prevented_dedup_chunks += other.defrag_prevented_dedup_chunks;
        self.xorb_bytes_uploaded += other.xorb_bytes_uploaded;
        self.shard_bytes_uploaded += other.shard_bytes_uploaded;
        self.total_bytes_uploaded += other.total_bytes_uploaded;
    }
}
