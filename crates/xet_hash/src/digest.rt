//! Digests of bytes that are all in memory. They allocate nothing.

ghost use Rattle.std.specs.Prelude.{◌≡◌, ◌≤◌};
ghost use Rattle.xet_hash.specs.Blake3.{digest_in_mode, keyed_digest, plain_digest, subtree_len};
ghost use Rattle.xet_hash.specs.Keys.{data_key, node_key};

use crate::blake3::{INITIAL_WORDS, KEYED_HASH, ROOT, bytes_of, key_words};
use crate::data_hash::DataHash;
use crate::definition::{LEVELS, subtree_len};
use crate::subtrees::tree;

/// The key of chunk hashes: the bytes 1 to 32.
pub const DATA_KEY: [u8; 32] = [
    1, 2, 3, 4, 5, 6, 7, 8, 9, 10, 11, 12, 13, 14, 15, 16, 17, 18, 19, 20, 21, 22, 23, 24, 25, 26,
    27, 28, 29, 30, 31, 32,
];

/// The key of Merkle node hashes: the bytes 33 to 64.
pub(crate) const NODE_KEY: [u8; 32] = [
    33, 34, 35, 36, 37, 38, 39, 40, 41, 42, 43, 44, 45, 46, 47, 48, 49, 50, 51, 52, 53, 54, 55, 56,
    57, 58, 59, 60, 61, 62, 63, 64,
];

/// The verification key: the key of range hashes.
pub const VERIFICATION_KEY: [u8; 32] = [
    127, 24, 87, 214, 206, 86, 237, 102, 18, 127, 249, 19, 231, 165, 195, 243, 164, 205, 38, 213,
    181, 219, 73, 230, 65, 36, 152, 127, 40, 251, 148, 195,
];

/// The digest of a chunk's bytes: BLAKE3 with the data key.
pub fn compute_data_hash(bytes: &[u8]) -> DataHash
    ensures { result ≡ keyed_digest data_key bytes.now }
{
    keyed_hash(&DATA_KEY, bytes)
}

/// The digest of a Merkle node's lines: BLAKE3 with the node key.
pub fn compute_internal_node_hash(bytes: &[u8]) -> DataHash
    ensures { result ≡ keyed_digest node_key bytes.now }
{
    keyed_hash(&NODE_KEY, bytes)
}

/// BLAKE3 without a key.
pub fn plain_hash(bytes: &[u8]) -> DataHash
    ensures { result ≡ plain_digest bytes.now }
{
    digest_in_mode(&INITIAL_WORDS, 0, bytes)
}

/// BLAKE3 with a key.
pub(crate) fn keyed_hash(key: &[u8; 32], bytes: &[u8]) -> DataHash
    ensures { result ≡ keyed_digest key.now bytes.now }
{
    digest_in_mode(&key_words(key), KEYED_HASH, bytes)
}

/// BLAKE3 with these key words and flags.
fn digest_in_mode(key: &[u32; 8], flags: u32, bytes: &[u8]) -> DataHash
    ensures { result ≡ digest_in_mode key.now flags bytes.now }
{
    let root = tree(key, flags, ROOT, 0, bytes, level_of(bytes.len()));
    DataHash::from_bytes(bytes_of(&root))
}

/// The lowest level with room for so many bytes.
fn level_of(len: usize) -> u32
    ensures level { result ≤ 54 }
    ensures fits { len ≤ subtree_len result }
{
    for level in 0..LEVELS {
        if len <= subtree_len(level) {
            return level;
        }
    }
    LEVELS
}
