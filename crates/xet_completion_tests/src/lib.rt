//! Tests of whether a file may be recorded.
#![tactic(auto)]

#[cfg(test)]
mod tests;
