//! Numbers and hashes at an offset of some bytes. Numbers are little-endian.

ghost use Rattle.std.specs.Prelude.{◌≡◌, ◌≤◌, ◌+◌, drop, length, take};
ghost use Rattle.xet_codec.specs.Numbers.{half_word, word};

use xet_hash::DataHash;

/// The number in the four bytes at offset `at`.
pub fn half_word(bytes: &[u8], at: usize) -> u32
    requires { at + 4 ≤ length bytes.now }
    ensures { result ≡ half_word bytes.now at }
{
    let b = &bytes[at..at + 4];
    u32::from_le_bytes([b[0], b[1], b[2], b[3]])
}

/// The number in the eight bytes at offset `at`.
pub fn word(bytes: &[u8], at: usize) -> u64
    requires { at + 8 ≤ length bytes.now }
    ensures { result ≡ word bytes.now at }
{
    let b = &bytes[at..at + 8];
    u64::from_le_bytes([b[0], b[1], b[2], b[3], b[4], b[5], b[6], b[7]])
}

/// The hash in the 32 bytes at offset `at`.
pub fn hash_at(bytes: &[u8], at: usize) -> DataHash
    requires { at + 32 ≤ length bytes.now }
    ensures { result ≡ take 32 (drop at bytes.now) }
{
    let mut hash = [0; 32];
    hash.copy_from_slice(&bytes[at..at + 32]);
    DataHash::from_bytes(hash)
}
