//! Reading of shards from any reader, part by part.

pub mod byte_ranges;
pub mod lookup_items;
pub mod lookups;
pub mod sections;
mod whole;
