//! Look-ups in the shards of a store: what is pending, and the registered shards on a disk.
#![tactic(auto)]

mod files;
mod queries;

pub use files::find_file;
pub use queries::find_run;
