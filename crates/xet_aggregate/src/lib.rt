//! What many files share until a xorb is full: the chunks that no xorb has yet, and the counts of deduplication.
#![tactic(auto)]

mod aggregator;
pub mod laws;
mod metrics;
mod segments;

pub use aggregator::{DataAggregator, PendingFile};
pub use metrics::DeduplicationMetrics;
