//! Queries for chunks that are stored already: the interface that answers them, and the places of the chunks of a batch.
#![tactic(auto)]

mod acts;
mod interface;
mod passing;
mod places;

pub use acts::Acts;
pub use interface::{DeduplicationDataInterface, FileXorbDependency};
pub use places::{DedupError, Place, Places, find_places};
