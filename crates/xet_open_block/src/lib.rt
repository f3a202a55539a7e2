//! The chunks of the xorb that is being filled.
#![tactic(auto)]

mod block;

pub use block::OpenBlock;
