//! Digests of the messages of BLAKE3's vectors.

use std::alloc::Global;
use std::println;
use xet_hash::{
    DATA_KEY, DataHash, DataHasher, StoreError, compute_data_hash, definition, plain_hash,
};

/// The maximum length of a message.
const MAX: u64 = 1 << 21;

/// The message of a length: byte i is i modulo 251.
fn message(alloc: Global, length: u64) -> Result<Vec<u8>, StoreError> {
    let mut bytes = Vec::new(alloc);
    for i in 0..length {
        bytes.push((i % 251) as u8)?;
    }
    Ok(bytes)
}

/// The digest with the data key from two pieces.
fn in_two(bytes: &[u8]) -> DataHash {
    let (front, back) = bytes.split_at(bytes.len() / 3);
    let mut hasher = DataHasher::new(DATA_KEY);
    hasher.update(front);
    hasher.update(back);
    hasher.finish()
}

/// Prints the digests of the message of a length: without a key and with the data key, each by the definition too; and
/// with the data key from two pieces. Returns how many.
pub(crate) fn print_vectors(rt: &HostRuntime, length: u64) -> Result<u64, StoreError> {
    let bytes = message(rt.alloc(), length.min(MAX))?;
    print(rt, &plain_hash(&bytes))?;
    print(rt, &definition::plain_digest(&bytes))?;
    print(rt, &compute_data_hash(&bytes))?;
    print(rt, &definition::keyed_digest(&DATA_KEY, &bytes))?;
    print(rt, &in_two(&bytes))?;
    Ok(5)
}

/// Prints the bytes of a digest in hexadecimal.
fn print(rt: &HostRuntime, hash: &DataHash) -> Result<(), StoreError> {
    let digits = hex::encode(rt.alloc(), hash.as_bytes().as_slice())?;
    let _ = println!(rt; "{digits}");
    Ok(())
}
