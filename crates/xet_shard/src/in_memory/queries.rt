//! Queries to a shard in memory.

ghost use Rattle.std.specs.Prelude.{◌≡◌, IfOk, IsOkUnless, length, map, option_map};
ghost use Rattle.xet_shard.specs.Held.{by_hash, record_of};
ghost use Rattle.xet_shard_format.specs.Records.{file_record_hash, xorb_record_hash};
ghost use Rattle.xet_shard.specs.Runs.{held_run};
ghost use Rattle.xet_shard_format.specs.Encoding.{materialized, stored};

use super::{MDBInMemoryShard, by_hash};
use crate::query::run::run_at;
use std::alloc::Global;
use xet_hash::{HMACKey, MerkleHash, StoreError};
use xet_shard_format::{FileDataSequenceEntry, MDBFileInfo, MDBXorbInfo};

impl MDBInMemoryShard {
    /// The xorb with a hash, or none if the shard has none.
    pub fn xorb_block(&self, hash: &MerkleHash) -> Option<&MDBXorbInfo>
        ensures { option_map (λ block. block.now) result ≡ record_of xorb_record_hash hash.now self.now.blocks }
    {
        self.blocks.get(hash)
    }

    /// The file record with a hash, or none if the shard has none.
    pub fn file_info(&self, hash: &MerkleHash) -> Option<&MDBFileInfo>
        ensures { option_map (λ file. file.now) result ≡ record_of file_record_hash hash.now self.now.files }
    {
        self.files.get(hash)
    }

    /// A copy of the file record with a hash, or none if the shard has none. The only error is
    /// `StoreError::OutOfMemory`.
    pub fn get_file_reconstruction_info(
        &self,
        alloc: Global,
        hash: &MerkleHash,
    ) -> Result<Option<MDBFileInfo>, StoreError>
        ensures file { IfOk result (λ found. found ≡ record_of file_record_hash hash.now self.now.files) }
        ensures memory { IsOkUnless result StoreError.OutOfMemory }
    {
        match self.files.get(hash) {
            Some(file) => Ok(Some(file.copy(alloc)?)),
            None => Ok(None),
        }
    }

    /// Copies of the file records in ascending order of hash. The only error is `StoreError::OutOfMemory`.
    pub fn all_file_info(&self, alloc: Global) -> Result<Vec<MDBFileInfo>, StoreError>
        ensures files { IfOk result (λ files. files.items ≡ by_hash file_record_hash self.now.files) }
        ensures memory { IsOkUnless result StoreError.OutOfMemory }
    {
        let files = by_hash(alloc, &self.files)?;
        copies(alloc, &files)
    }

    /// The run of a query: how many of its first hashes are those of consecutive chunks of a xorb, and the
    /// segment of these chunks. The run starts at the last chunk with the first hash: of the xorbs that have
    /// it, in the one that was added last, and there at the last index. None if no xorb has it, or if the
    /// query is empty. Allocates nothing. Its time does not depend on the size of the shard.
    pub fn chunk_hash_dedup_query(
        &self,
        query: &[MerkleHash],
    ) -> Option<(usize, FileDataSequenceEntry)>
        ensures { result ≡ held_run self.now.blocks query.now }
    {
        let first = query.first()?;
        let (index, place) = *self.places.get(first)?;
        let (_, block) = self.blocks.get_index(index as usize)?;
        run_at(&HMACKey::default(), query, block, place)
    }

    /// The number of xorbs.
    pub fn num_xorb_entries(&self) -> u64
        ensures { result ≡ length self.now.blocks }
    {
        self.blocks.len() as u64
    }

    /// The number of files.
    pub fn num_file_entries(&self) -> u64
        ensures { result ≡ length self.now.files }
    {
        self.files.len() as u64
    }

    /// The uncompressed bytes of all segments of all files.
    pub fn materialized_bytes(&self) -> u64
        ensures { result ≡ materialized self.now.files }
    {
        let mut total: u64 = 0;
        for file in self.files.values() {
            total += file.segments_size();
        }
        total
    }

    /// The uncompressed bytes of all chunks of all xorbs.
    pub fn stored_bytes(&self) -> u64
        ensures { result ≡ stored self.now.blocks }
    {
        let mut total: u64 = 0;
        for block in self.blocks.values() {
            total += block.stated_size();
        }
        total
    }
}

/// Copies of these file records.
fn copies(alloc: Global, files: &[&MDBFileInfo]) -> Result<Vec<MDBFileInfo>, StoreError>
    ensures copies { IfOk result (λ copies. copies.items ≡ map (λ file. file.now) files.now) }
    ensures memory { IsOkUnless result StoreError.OutOfMemory }
{
    let mut copies = Vec::with_capacity(alloc, files.len())?;
    for file in files {
        copies.push(file.copy(alloc)?)?;
    }
    Ok(copies)
}
