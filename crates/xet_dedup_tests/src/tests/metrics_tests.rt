//! Tests of the JSON of metrics.

use crate::tests::samples::metrics;
use std::test::Fail;
use xet_aggregate::DeduplicationMetrics;

/// The JSON of `counts`.
const JSON: &str =
    "{\"total_bytes\":200,\"deduped_bytes\":128,\"new_bytes\":72,\"deduped_bytes_by_global_dedup\":0,\"defrag_prevented_dedup_bytes\":192,\"total_chunks\":4,\"deduped_chunks\":2,\"new_chunks\":2,\"deduped_chunks_by_global_dedup\":0,\"defrag_prevented_dedup_chunks\":3,\"xorb_bytes_uploaded\":0,\"shard_bytes_uploaded\":0,\"total_bytes_uploaded\":0}";

/// Some counts.
fn counts() -> DeduplicationMetrics {
    metrics([(4, 200), (2, 128), (2, 72), (0, 0), (3, 192)])
}

#[test]
fn metrics_are_written_and_read_as_json(rt: HostRuntime) -> Result<(), Fail> {
    let alloc = rt.alloc();
    let text = serde_json::to_string(alloc, &counts())?;
    assert_eq!(rt; text.as_str(), JSON);
    let read: DeduplicationMetrics = serde_json::from_str(alloc, JSON)?;
    assert_eq!(rt; read, counts());
    Ok(())
}
