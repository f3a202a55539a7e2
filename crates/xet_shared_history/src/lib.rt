//! One history that several holders share: each has seen a prefix of it, and one of them, which has seen all of it, adds to it.
//! The entries themselves are stored elsewhere. Here is what the holders know of them, which no value of a program states.
#![tactic(auto)]

mod counted;
mod rule;
mod seats;

pub use counted::announce_all;
pub use seats::{HistoryWord, Reader, Writer};
