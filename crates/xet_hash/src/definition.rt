//! BLAKE3 as it is defined: the whole message is split from the top. The other implementations are tested
//! against this one.

ghost use Rattle.std.specs.Prelude.{◌≡◌, ◌+◌, ◌*◌, ◌^◌, ◌<◌, ◌≤◌, length};
ghost use Rattle.xet_hash.specs.Blake3.{keyed_digest, plain_digest, subtree, subtree_len};

use crate::blake3::{
    CHUNK_LEN, INITIAL_WORDS, KEYED_HASH, ROOT, bytes_of, chunk, key_words, parent,
};
use crate::data_hash::DataHash;

/// The number of levels of the tree of any message.
pub(crate) const LEVELS: u32 = 54;

/// BLAKE3 with a key.
pub fn keyed_digest(key: &[u8; 32], bytes: &[u8]) -> DataHash
    ensures { result ≡ keyed_digest key.now bytes.now }
{
    let root = subtree(&key_words(key), KEYED_HASH, ROOT, 0, bytes, LEVELS);
    DataHash::from_bytes(bytes_of(&root))
}

/// BLAKE3 without a key.
pub fn plain_digest(bytes: &[u8]) -> DataHash
    ensures { result ≡ plain_digest bytes.now }
{
    let root = subtree(&INITIAL_WORDS, 0, ROOT, 0, bytes, LEVELS);
    DataHash::from_bytes(bytes_of(&root))
}

/// The number of bytes of 2^level chunks.
pub(crate) fn subtree_len(level: u32) -> usize
    requires { level < 54 }
    ensures { result ≡ subtree_len level }
{
    CHUNK_LEN << level
}

/// The number of chunks of a full subtree.
pub(crate) fn chunk_count(level: u32) -> u64
    requires { level < 54 }
    ensures { result ≡ 2 ^ level }
{
    1 << level
}

/// The chaining value of the chunks of these bytes. The first chunk has the number `index`.
pub(crate) fn subtree(
    key: &[u32; 8],
    flags: u32,
    last: u32,
    index: u64,
    bytes: &[u8],
    level: u32,
) -> [u32; 8]
    requires level { level ≤ 54 }
    requires fits { length bytes.now ≤ subtree_len level }
    requires index { index + 2 ^ level ≤ 2 ^ 54 }
    ensures { result ≡ subtree key.now flags last index bytes.now level }
{
    if level == 0 {
        return chunk(key, flags, last, index, bytes);
    }
    let below = level - 1;
    let half = subtree_len(below);
    if bytes.len() <= half {
        return subtree(key, flags, last, index, bytes, below);
    }
    let (prefix, back) = bytes.split_at(half);
    let left = subtree(key, flags, 0, index, prefix, below);
    let right = subtree(key, flags, 0, index + chunk_count(below), back, below);
    parent(key, flags, last, &left, &right)
}
