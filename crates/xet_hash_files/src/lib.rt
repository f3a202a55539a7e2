//! The pointer records of files, without storing them: many sources are read and hashed by several threads.
#![tactic(auto)]

mod file_hasher;
mod parts;
mod reading;
mod splitting;
mod workers;

pub use workers::hash_files;
