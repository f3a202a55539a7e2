//! Queries: a file by its hash, and the run of chunks with which a list of hashes begins.

pub mod bisection;
pub mod file_record;
pub mod lookup_search;
mod reader;
pub mod run;
pub mod stored_run;
