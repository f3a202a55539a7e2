//! A shard is written into a folder and registered, in one step: one whose bytes are given, or that of what is pending.
#![tactic(auto)]

mod due;
mod file;
mod flush;
mod import;
mod parts;
mod paths;
mod registering;

pub use due::{DueShard, prepare_flush};
pub use flush::{flush_pending, flush_prepared};
pub use import::import_shard;
