//! Sample shards for tests: with a xorb of one chunk of three bytes, and with the file of that chunk.
#![tactic(auto)]

mod abc;
mod without_lookups;

pub use abc::{Written, file_of_abc, release, shard_of, shard_of_abc};
pub use without_lookups::abc_without_lookups;
