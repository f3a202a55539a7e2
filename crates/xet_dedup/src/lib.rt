//! Deduplication of files: the chunks of a file are found in a store, or stored. Packing of chunks into xorbs, and the records
//! of files. Re-exports the crates that it stands on.
#![tactic(auto)]

mod deduper;
mod ending;
mod finalizing;
pub mod laws;
mod metrics;
mod packing;
mod placing;
mod records;
mod walk;

pub use deduper::FileDeduper;
pub use finalizing::Finalized;
pub use packing::{chunks_of, pack_len};
pub use records::file_record;
pub use xet_aggregate::{DataAggregator, DeduplicationMetrics, PendingFile};
pub use xet_choices::Choice;
pub use xet_cut::{
    Chunker, LimitSettings, Limits, chunk_lengths, chunk_list, find_partitions, first_chunk_len,
    gear_table, generated,
};
pub use xet_dedup_queries::{Acts, DedupError, DeduplicationDataInterface, FileXorbDependency};
pub use xet_file_plan::FilePlan;
pub use xet_fragmentation::DefragPrevention;
