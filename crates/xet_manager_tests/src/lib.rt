//! Tests of the manager of the shards of a folder, through its public calls.
#![tactic(auto)]

#[cfg(test)]
mod tests;
