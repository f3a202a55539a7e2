//! Shard files as values: loaded from their paths, verified, read and queried where they lie, written, copied, and given
//! another expiry or a key; and folders of them, with expiry and pruning.
#![tactic(auto)]

mod directory;
mod folder;
mod integrity;
mod keyed;
mod paths;
mod pruning;
mod queries;
mod reader;
mod reading;
mod shard_file;
mod sized_reader;
mod standing;
mod writing;

pub use directory::remove_all;
pub use reader::{NoReader, ReaderIfPresent};
pub use shard_file::MDBShardFile;
pub use sized_reader::SizedFileReader;
pub use standing::{Standing, add_shard_file, keep_named_file, standing_of};
pub use writing::{write_named_file, write_shard_file};
