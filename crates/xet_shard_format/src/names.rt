//! File names of shards.

ghost use Rattle.std.specs.Prelude.{◌≡◌, IfOk, IfSome, IsOkUnless, List, Some, length, string_bytes, ℕ};
ghost use Rattle.hex.specs.Hex.{IsBytes};
ghost use Rattle.xet_hash.specs.Hash.{hash_word};
ghost use Rattle.xet_shard_format.specs.internal.Names.{has_capitals};
ghost use Rattle.xet_shard_format.specs.Names.{shard_name};

use std::alloc::Global;
use xet_hash::{DataHash, MerkleHash, StoreError};

/// The file name of the shard with this hash, without its folder: the text form of the hash and `.mdb`. The
/// only error is `StoreError::OutOfMemory`.
pub fn shard_file_name(alloc: Global, hash: &MerkleHash) -> Result<String, StoreError>
    ensures name { IfOk result (λ name. string_bytes name ≡ shard_name hash.now) }
    ensures memory { IsOkUnless result StoreError.OutOfMemory }
{
    let mut name = hash.hex(alloc)?;
    name.push_str(".mdb")?;
    Ok(name)
}

/// The hash of the shard with this file name, given without its folder; none if the name is not that of a
/// shard. The digits of a name are lower-case.
pub fn parse_shard_filename(name: &str) -> Option<MerkleHash>
    ensures found { IfSome result (λ hash. name.now ≡ shard_name hash) }
    ensures every { (hash : List ℕ) → length hash ≡ 32 → IsBytes hash → name.now ≡ shard_name hash → result ≡ Some hash }
{
    let text = name.strip_suffix(".mdb")?;
    if has_capitals(text) {
        return None;
    }
    DataHash::from_hex(text).ok()
}

/// Whether the text has a letter from `A` to `Z`.
fn has_capitals(text: &str) -> bool
    ensures { result ≡ has_capitals text.now }
{
    text.bytes().any(|byte| byte.is_ascii_uppercase())
}

/// The first word of a hash, by which lookup tables are searched.
pub fn truncate_hash(hash: &MerkleHash) -> u64
    ensures { result ≡ hash_word hash.now 0 }
{
    hash.word(0)
}
