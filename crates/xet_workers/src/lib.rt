//! Workers that share a session: each has a pass and a part of the sources, and cleans the files of its part. The SHA-256 of a
//! file with large blocks is computed on a thread of its own, if one can be started.
#![tactic(auto)]

mod behind;
mod clean;
mod crew;
mod ending;
mod seat;
mod team;
mod work;

pub use behind::Behind;
pub use clean::clean_files;
