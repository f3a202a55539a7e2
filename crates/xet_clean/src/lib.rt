//! Cleaning with deduplication: the files of many sources are stored in a store whose steps are recorded.
#![tactic(auto)]

mod aggregate;
mod block_reader;
mod clean;
mod cleaner;
mod digest;
mod errors;
mod info;
mod merging;
mod metrics;
mod policy;
mod single;
mod sources;
mod working;

pub use clean::clean_files;
pub use cleaner::{FileCleaner, FinishedFile, add_block};
pub use digest::FileDigest;
pub use info::Cleaned;
pub use merging::merge_all;
pub use policy::{Sha256Generator, Sha256Policy};
pub use single::{clean_bytes, clean_file};
pub use sources::clean_each;
pub use working::Working;
