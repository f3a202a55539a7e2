//! Tests of reading the sections and the parts of shards, and of queries, through public functions.
#![tactic(auto)]

#[cfg(test)]
mod tests;
