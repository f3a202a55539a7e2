//! Tests of the public calls of `xet_io`, `xet_hash`, `xet_group` and `xet_arguments`.
#![tactic(auto)]

#[cfg(test)]
mod argument_tests;
#[cfg(test)]
mod folder_tests;
#[cfg(test)]
mod group_tests;
#[cfg(test)]
mod hash_tests;
#[cfg(test)]
mod io_tests;
