//! The shard of `abc` without its lookup tables.

ghost use Rattle.std.specs.Prelude.{◌≡◌, length};

use crate::abc::shard_of_abc;
use std::alloc::Global;
use xet_hash::StoreError;

/// The shard of `abc` in these bytes without its lookup tables, which are the 40 bytes before the footer.
fn without_lookups(alloc: Global, encoding: &[u8]) -> Result<Vec<u8>, StoreError>
    requires { length encoding.now ≡ 672 }
{
    let (sections, rest) = encoding.split_at(432);
    let (_, footer) = rest.split_at(40);
    let (places, rest) = footer.split_at(24);
    let (_, rest) = rest.split_at(48);
    let (others, _) = rest.split_at(120);
    let mut other = Vec::from_slice(alloc, sections)?;
    other.extend_from_slice(places)?;
    for _lookup in 0..3 {
        other.extend_from_slice(&432u64.to_le_bytes())?;
        other.extend_from_slice(&0u64.to_le_bytes())?;
    }
    other.extend_from_slice(others)?;
    other.extend_from_slice(&432u64.to_le_bytes())?;
    Ok(other)
}

/// The bytes of the shard of `abc` without its lookup tables.
pub fn abc_without_lookups(alloc: Global) -> Result<Vec<u8>, StoreError> {
    let (encoding, _) = shard_of_abc(alloc)?;
    if encoding.len() != 672 {
        return Err(StoreError::UnexpectedEof);
    }
    without_lookups(alloc, &encoding)
}
