//! One file that is cleaned as its bytes come, over a pass of a session.
#![tactic(auto)]

mod ghost_bytes;
mod pieces;
mod single;

pub use single::SingleFileCleaner;
