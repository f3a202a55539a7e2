//! What is found in the registered shards of a store, and what its core says of them: theorems.
#![tactic(auto)]

pub mod laws;
