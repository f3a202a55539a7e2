//! Tests of the public calls of `xet_xorb_chunk` and `xet_xorb_footer`.
#![tactic(auto)]

#[cfg(test)]
mod tests;
