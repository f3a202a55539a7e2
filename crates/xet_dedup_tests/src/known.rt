//! `KnownXorb`: a xorb of which a store in memory knows the chunks.

ghost use Rattle.std.specs.Prelude.{◌≡◌, ◌≢◌, ◌<◌, ◌^◌, IfOk, length, true};
ghost use Rattle.xet_hash.specs.Hash.{sentinel};
ghost use Rattle.xet_hash.specs.Merkle.{total_len};

use crate::errors::TestError;
use xet_base::Items;
use xet_hash::MerkleHash;

/// The chunks of a xorb, without their bytes.
#[derive(Debug, Drop)]
pub struct KnownXorb {
    /// Xorb hash.
    pub hash: MerkleHash,
    /// The hash and the length in bytes of each chunk.
    pub leaves: Items<(MerkleHash, u64)>,
    /// Whether queries answer that the xorb is external.
    pub is_external: bool,
    ghost named: { hash ≢ sentinel },
    ghost small: { total_len leaves < 2 ^ 32 },
    ghost few: { length leaves < 2 ^ 32 },
}

impl KnownXorb {
    /// The xorb with this hash and these chunks. The error is `OtherXorb` if its hash is the sentinel, or if it has 2^32
    /// bytes or chunks, or more. Does not allocate.
    pub fn new(
        hash: MerkleHash,
        leaves: Vec<(MerkleHash, u64)>,
        is_external: bool,
    ) -> Result<KnownXorb, TestError>
        ensures { IfOk result (λ x. (x.hash ≡ hash) × (x.leaves ≡ leaves.items) × (x.is_external ≡ is_external)) }
    {
        if hash == MerkleHash::marker() || leaves.len() > u32::MAX as usize || !is_small(&leaves) {
            return Err(TestError::OtherXorb);
        }
        Ok(KnownXorb {
            hash,
            leaves: Items::from_vec(leaves),
            is_external,
        })
    }
}

/// Whether these chunks have fewer than 2^32 bytes together.
fn is_small(leaves: &[(MerkleHash, u64)]) -> bool
    ensures { result ≡ true → total_len leaves.now < 2 ^ 32 }
{
    let limit = u64::from(u32::MAX);
    let mut total = 0;
    for (_, bytes) in leaves {
        if *bytes > limit - total {
            return false;
        }
        total += *bytes;
    }
    true
}
