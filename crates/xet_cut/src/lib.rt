//! The limits of a store, and content-defined chunking: where the bytes of a file are split into chunks.
#![tactic(auto)]

mod boundary;
mod chunker;
mod chunking;
mod generator;
pub mod laws;
mod limits;
mod partitions;

pub use chunker::Chunker;
pub use chunking::{chunk_lengths, chunk_list, first_chunk_len};
pub use generator::{gear_table, generated};
pub use limits::{LimitSettings, Limits};
pub use partitions::find_partitions;
