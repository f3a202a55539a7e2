//! Digests, Merkle hashes of chunk lists, and the one error type of the crates above.
#![tactic(auto)]

mod blake3;
mod data_hash;
pub mod definition;
mod digest;
mod error;
mod hasher;
mod lanes;
pub mod laws;
mod maps;
mod merkle;
mod open_chunk;
mod range;
mod subtrees;
mod value_stack;

pub use data_hash::{
    DataHash, HMACKey, MDB_SHARD_GLOBAL_DEDUP_CHUNK_MODULUS, MerkleHash,
    hash_is_global_dedup_eligible,
};
pub use digest::{
    DATA_KEY, VERIFICATION_KEY, compute_data_hash, compute_internal_node_hash, plain_hash,
};
pub use error::{Field, Place, Reason, Refused, StoreError, What};
pub use hasher::DataHasher;
pub use maps::{MerkleHashMap, PassThroughHashMap, TruncatedMerkleHashMap};
pub use merkle::{file_hash, file_hash_with_salt, xorb_hash};
pub use range::{range_hash, range_hash_from_chunks};
