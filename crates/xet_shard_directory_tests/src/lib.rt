//! Tests of shard files, of registered shards and of merging, through their public functions.
#![tactic(auto)]

#[cfg(test)]
mod tests;
