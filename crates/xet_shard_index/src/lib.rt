//! A packed index of the first words of the chunk hashes of shards: where the last chunk with a word is. Its entries
//! stand in few sorted runs, of 20 bytes an item and at most one more for each.
#![tactic(auto)]

mod insertion;
mod packed_index;
mod packed_item;
mod search;
mod shard_items;
mod starts;
mod steps;
mod word_place;
mod word_run;

pub use packed_index::PackedIndex;
pub use steps::Steps;
pub use word_place::WordPlace;
pub use word_run::WordRun;
