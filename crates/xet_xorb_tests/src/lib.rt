//! Tests of the public calls of `xet_xorb`, and of the samples of `xet_xorb_samples`.
#![tactic(auto)]

#[cfg(test)]
mod tests;
