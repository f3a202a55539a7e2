//! Tests of writing, checking, exporting and uniting shards, through public functions.
#![tactic(auto)]

#[cfg(test)]
mod tests;
