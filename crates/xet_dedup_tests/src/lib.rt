//! A store in memory, and tests of the deduplication of files against it.
#![tactic(auto)]

mod errors;
mod finding;
mod known;
mod list_store;
#[cfg(test)]
mod tests;

pub use errors::TestError;
pub use known::KnownXorb;
pub use list_store::{ListStore, LoggedCall};
