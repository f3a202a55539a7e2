//! The modules of tests.

mod background_tests;
mod calls_tests;
mod directory_tests;
mod folder_tests;
mod index_tests;
mod merge_tests;
mod reader_tests;
mod registry_tests;
mod samples;
mod shard_files;
mod skipping_tests;
