//! `DueXorb`: a xorb that is ready to be stored.

ghost use Rattle.std.specs.Prelude.{◌≡◌, ◌^◌, true, IfOk, IsOkUnless, length};
ghost use Rattle.xet_dedup.specs.Records.{xorb_record};
ghost use Rattle.xet_dedup_queries.specs.Registering.{IsNewXorb};
ghost use Rattle.xet_shard_format.specs.RecordSizes.{xorb_record_size};
ghost use Rattle.xet_store_disk.specs.DueXorb.{IsDueXorb};
ghost use Rattle.xet_xorb.specs.Building.{built_of};
ghost use Rattle.xet_xorb.specs.Raw.{raw_leaves};

use std::alloc::Global;
use std::marker::Model;
use xet_folder::Leaves;
use xet_hash::{MerkleHash, StoreError};
use xet_shard_format::MDBXorbInfo;
use xet_xorb::{RawXorbData, SerializedXorbObject};

/// A xorb that is ready to be stored: encoded, with the memory that listing it takes. Contracts see its hash, the hashes and
/// lengths of its chunks, and its encoding.
#[derive(Drop)]
pub struct DueXorb {
    hash: MerkleHash,
    leaves: Leaves,
    /// Its record in a shard.
    block: MDBXorbInfo,
    encoding: Vec<u8>,
}

impl Model for DueXorb {
    ghost use Rattle.std.specs.Prelude.{◌≡◌};
    ghost use Rattle.xet_dedup.specs.Records.{xorb_record};
    ghost use Rattle.xet_store_disk.specs.DueXorb.{DueXorbValue, IsDueXorb, due_xorb};

    ghost Value = { DueXorbValue };

    ghost view = { λ d. due_xorb d.hash d.leaves d.encoding.items };

    ghost invariant = { λ d. IsDueXorb (due_xorb d.hash d.leaves d.encoding.items) × (d.block ≡ xorb_record d.hash d.leaves) };
}

impl DueXorb {
    /// Encodes a xorb, with a footer of version 1, into the memory of `buffer`, whose bytes are dropped. The only error is
    /// `OutOfMemory`.
    pub fn new(alloc: Global, buffer: Vec<u8>, raw: RawXorbData) -> Result<DueXorb, StoreError>
        requires new { IsNewXorb (2 ^ 30, 65536) raw }
        ensures hash { IfOk result (λ due. due.hash ≡ raw.xorb_info.metadata.xorb_hash) }
        ensures leaves { IfOk result (λ due. due.leaves ≡ raw_leaves raw) }
        ensures encoding { IfOk result (λ due. due.encoding ≡ (built_of raw true).serialized_data) }
        ensures memory { IsOkUnless result StoreError.OutOfMemory }
    {
        let hash = raw.hash();
        let leaves = Leaves::from_vec(alloc, leaves_of_raw(alloc, &raw)?)?;
        let block = raw.xorb_info.copy(alloc)?;
        let built = SerializedXorbObject::from_xorb_in(alloc, buffer, raw, true)?;
        Ok(DueXorb {
            hash,
            leaves,
            block,
            encoding: built.serialized_data.into_vec(),
        })
    }

    /// The xorb hash.
    pub fn hash(&self) -> MerkleHash
        ensures { result ≡ self.now.hash }
    {
        self.hash
    }

    /// The number of chunks.
    pub fn len(&self) -> usize
        ensures { result ≡ length self.now.leaves }
    {
        self.leaves.len()
    }

    /// The hash and the length in bytes of each chunk, in order.
    pub fn leaves(&self) -> &[(MerkleHash, u64)]
        ensures { result.now ≡ self.now.leaves }
    {
        self.leaves.as_slice()
    }

    /// The bytes that its record adds to a shard.
    pub fn num_bytes(&self) -> u64
        ensures { result ≡ xorb_record_size (xorb_record self.now.hash self.now.leaves) }
    {
        self.block.num_bytes()
    }

    /// Proof aid without effect: makes available to the caller what is so of each such xorb.
    pub fn recall_invariant(&self)
        ensures { IsDueXorb self.now }
    {
        let _ = &self.encoding;
    }

    /// Its encoding.
    pub(crate) fn encoding(&self) -> &[u8]
        ensures { result.now ≡ self.now.encoding }
    {
        &self.encoding
    }

    /// Its record in a shard, its chunks, and the buffer of its encoding.
    pub(crate) fn into_parts(self) -> (MDBXorbInfo, Leaves, Vec<u8>)
        ensures block { result.0 ≡ xorb_record self.hash self.leaves }
        ensures leaves { result.1 ≡ self.leaves }
    {
        (self.block, self.leaves, self.encoding)
    }
}

/// The hash and the length of each chunk of a xorb.
pub fn leaves_of_raw(alloc: Global, raw: &RawXorbData) -> Result<Vec<(MerkleHash, u64)>, StoreError>
    ensures leaves { IfOk result (λ leaves. leaves.items ≡ raw_leaves raw.now) }
    ensures memory { IsOkUnless result StoreError.OutOfMemory }
{
    let chunks = raw.xorb_info.chunks.as_slice();
    let mut leaves = Vec::with_capacity(alloc, chunks.len())?;
    for chunk in chunks {
        leaves.push((chunk.chunk_hash, u64::from(chunk.unpacked_segment_bytes)))?;
    }
    Ok(leaves)
}
