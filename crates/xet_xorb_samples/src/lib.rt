//! Sample xorbs for tests: of random chunks, and a reference encoder with which built xorbs are compared.
#![tactic(auto)]

mod reference;
mod samples;

pub use reference::{
    build_and_verify_xorb_object, serialize_xorb_to_stream_reference,
    serialized_xorb_object_from_components, verify_serialized_xorb_object,
};
pub use samples::{ChunkSize, build_raw_xorb, build_xorb_object, gen_random_bytes};
