//! Footers of xorbs: written to sinks, and read from sources, at the end of a reader, and incrementally.
#![tactic(auto)]

mod boundaries;
mod decoder;
mod ends;
mod info;
pub mod laws;
mod lists;
mod machine;
mod reading;
mod writing;

pub use decoder::InfoDecoder;
pub use ends::{footer_length, last_footer};
pub use info::{XorbObjectIdent, XorbObjectInfoV0, XorbObjectInfoV1};
