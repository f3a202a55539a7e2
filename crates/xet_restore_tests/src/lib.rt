//! Tests of reads of files out of a folder on a disk in memory, whole and damaged.
#![tactic(auto)]

#[cfg(test)]
mod tests;
