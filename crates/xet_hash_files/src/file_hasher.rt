//! `FileHasher`: the pointer record of a file whose bytes come in pieces.

ghost use Rattle.std.specs.Prelude.{◌≡◌, ◌++◌, [], ℕ, List, IfErr, IfOk, IsOkUnless, OnOk};
ghost use Rattle.xet_hash_files.specs.Hashing.{hashed_info};
ghost use Rattle.xet_hash_files.specs.internal.FileHasher.{IsAddError, IsHashing};

use crate::splitting::{split_off, split_rest};
use std::alloc::Global;
use xet_cut::{Chunker, Limits};
use xet_hash::{MerkleHash, StoreError, What, file_hash};
use xet_store_disk::XetFileInfo;

/// One file that is hashed as its bytes come. Of each chunk only the hash and the length stay in memory.
#[derive(Drop)]
pub(crate) struct FileHasher {
    alloc: Global,
    /// The chunker, with the bytes that are in no chunk yet.
    pub chunker: Chunker,
    /// The hash and the length in bytes of each chunk so far.
    pub leaves: Vec<(MerkleHash, u64)>,
    /// The number of bytes so far.
    pub byte_count: u64,
    /// The maximum number of bytes of a file.
    pub max_bytes: u64,
    /// The number by which errors name the source.
    pub number: u32,
}

impl FileHasher {
    /// Begins with a file of no bytes. Errors name the source by `number`. The only error here is `OutOfMemory`.
    pub(crate) fn new(alloc: Global, limits: &Limits, number: u32) -> Result<FileHasher, StoreError>
        ensures new { IfOk result (λ h. IsHashing h.chunker h.leaves.items h.byte_count h.max_bytes []) }
        ensures same { IfOk result (λ h. (h.chunker.settings ≡ limits.now) × (h.number ≡ number)) }
        ensures memory { IsOkUnless result StoreError.OutOfMemory }
    {
        limits.recall_invariant();
        let chunker = Chunker::new(alloc, limits)?;
        Ok(FileHasher {
            alloc,
            chunker,
            leaves: Vec::new(alloc),
            byte_count: 0,
            max_bytes: limits.max_source_bytes(),
            number,
        })
    }

    /// Takes the next bytes of the file. `TooLarge` with the number of the source is returned only if the file has more bytes
    /// than the limits allow; any other error is `OutOfMemory`. After an error the file is of no use.
    pub(crate) fn add(&mut self, bytes: &[u8]) -> Result<(), StoreError>
        requires hashing { (before : List ℕ) × IsHashing self.old.chunker self.old.leaves.items self.old.byte_count self.old.max_bytes before }
        ensures hashing { (before : List ℕ) → IsHashing self.old.chunker self.old.leaves.items self.old.byte_count self.old.max_bytes before
            → OnOk result (IsHashing self.new.chunker self.new.leaves.items self.new.byte_count self.new.max_bytes (before ++ bytes.now)) }
        ensures same { (self.new.chunker.settings ≡ self.old.chunker.settings) × (self.new.max_bytes ≡ self.old.max_bytes) × (self.new.number ≡ self.old.number) }
        ensures refused { IfErr result (IsAddError self.old.number self.old.byte_count self.old.max_bytes bytes.now) }
    {
        if bytes.len() as u64 > self.max_bytes - self.byte_count {
            return Err(StoreError::TooLarge(What::Source(self.number)));
        }
        split_off(&mut self.chunker, bytes, &mut self.leaves)?;
        self.byte_count += bytes.len() as u64;
        Ok(())
    }

    /// Ends the file, and returns its pointer record. The only error is `OutOfMemory`.
    pub(crate) fn finish(&mut self) -> Result<XetFileInfo, StoreError>
        requires hashing { (bytes : List ℕ) × IsHashing self.old.chunker self.old.leaves.items self.old.byte_count self.old.max_bytes bytes }
        ensures info { (bytes : List ℕ) → IsHashing self.old.chunker self.old.leaves.items self.old.byte_count self.old.max_bytes bytes
            → IfOk result (λ info. info ≡ hashed_info self.old.chunker.settings bytes) }
        ensures memory { IsOkUnless result StoreError.OutOfMemory }
    {
        split_rest(&mut self.chunker, &mut self.leaves)?;
        let hash = file_hash(self.alloc, &self.leaves)?;
        Ok(XetFileInfo {
            hash,
            file_size: self.byte_count,
            sha256: None,
        })
    }
}
