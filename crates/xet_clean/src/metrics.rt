//! Sums of metrics.

ghost use Rattle.std.specs.Prelude.{◌≡◌};
ghost use Rattle.xet_clean.specs.internal.Sums.{HasRoom};
ghost use Rattle.xet_dedup.specs.Deduping.{metrics_of_both};

use xet_dedup::DeduplicationMetrics;

/// Adds the metrics of another file. The counts of rejected runs and of second passes stay at 2^64 - 1 where they would pass
/// it; the caller ensures that no other does.
pub(crate) fn add_metrics(metrics: &mut DeduplicationMetrics, more: &DeduplicationMetrics)
    requires { HasRoom metrics.old more.now }
    ensures { metrics.new ≡ metrics_of_both metrics.old more.now }
{
    metrics.total_bytes += more.total_bytes;
    metrics.deduped_bytes += more.deduped_bytes;
    metrics.new_bytes += more.new_bytes;
    metrics.total_chunks += more.total_chunks;
    metrics.deduped_chunks += more.deduped_chunks;
    metrics.new_chunks += more.new_chunks;
    metrics.deduped_bytes_by_global_dedup = metrics
        .deduped_bytes_by_global_dedup
        .saturating_add(more.deduped_bytes_by_global_dedup);
    metrics.defrag_prevented_dedup_bytes = metrics
        .defrag_prevented_dedup_bytes
        .saturating_add(more.defrag_prevented_dedup_bytes);
    metrics.deduped_chunks_by_global_dedup = metrics
        .deduped_chunks_by_global_dedup
        .saturating_add(more.deduped_chunks_by_global_dedup);
    metrics.defrag_prevented_dedup_chunks = metrics
        .defrag_prevented_dedup_chunks
        .saturating_add(more.defrag_prevented_dedup_chunks);
    metrics.xorb_bytes_uploaded += more.xorb_bytes_uploaded;
    metrics.shard_bytes_uploaded += more.shard_bytes_uploaded;
    metrics.total_bytes_uploaded += more.total_bytes_uploaded;
}
