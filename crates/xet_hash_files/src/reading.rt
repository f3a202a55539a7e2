//! Reading a source to its end, and hashing its file.

ghost use Rattle.std.specs.Prelude.{◌≡◌, ◌<◌, ◌≤◌, [], ℕ, List, IfErr, IfOk, IsErr, IsOkUnless, OnErr, OnOk, false, length, true};
ghost use Rattle.xet_hash_files.specs.internal.FileHasher.{IsHashing};
ghost use Rattle.xet_hash_files.specs.internal.Sources.{IsHashed, IsLeft, IsSourceError, Takes};
ghost use Rattle.xet_io.specs.Frame.{Called, Stays};
ghost use Rattle.xet_io.specs.Whole.{Fills};

use crate::file_hasher::FileHasher;
use std::alloc::Global;
use xet_cut::Limits;
use xet_hash::{Place, StoreError};
use xet_io::{Source, read_full};
use xet_store_disk::XetFileInfo;

/// Reads a source to its end, and returns the pointer record of its file. Errors name it as source `number`.
pub(crate) fn hash_source<S: Source>(
    alloc: Global,
    limits: &Limits,
    source: &mut S,
    number: u32,
    block: &mut [u8],
) -> Result<XetFileInfo, StoreError>
    requires block { 0 < length block.old }
    ensures hashed { IfOk result (IsHashed S.tells S.left S.faults limits.now source.old source.new) }
    ensures left { IsLeft S.tells S.left S.faults source.old source.new }
    ensures refused { IfErr result (IsSourceError S.tells S.left S.faults limits.now.max_source_bytes number source.old source.new) }
{
    let hasher = FileHasher::new(alloc, limits, number)?;
    hash_rest(hasher, source, block)
}

/// Reads a source to its end with a hasher that has no bytes yet.
fn hash_rest<S: Source>(
    hasher: FileHasher,
    source: &mut S,
    block: &mut [u8],
) -> Result<XetFileInfo, StoreError>
    requires block { 0 < length block.old }
    requires hashing { IsHashing hasher.chunker hasher.leaves.items hasher.byte_count hasher.max_bytes [] }
    ensures hashed { IfOk result (IsHashed S.tells S.left S.faults hasher.chunker.settings source.old source.new) }
    ensures left { IsLeft S.tells S.left S.faults source.old source.new }
    ensures refused { IfErr result (IsSourceError S.tells S.left S.faults hasher.chunker.settings.max_source_bytes hasher.number source.old source.new) }
{
    let mut hasher = hasher;
    match read_into(&mut hasher, source, block) {
        Ok(()) => hasher.finish(),
        Err(error) => Err(error),
    }
}

/// Reads a source to its end, block by block, and adds its bytes to a file.
fn read_into<S: Source>(
    hasher: &mut FileHasher,
    source: &mut S,
    block: &mut [u8],
) -> Result<(), StoreError>
    requires block { 0 < length block.old }
    requires hashing { IsHashing hasher.old.chunker hasher.old.leaves.items hasher.old.byte_count hasher.old.max_bytes [] }
    ensures hashing { OnOk result ((bytes : List ℕ) × Takes true (S.tells source.old) (S.left source.old) (S.left source.new) bytes × IsHashing hasher.new.chunker hasher.new.leaves.items hasher.new.byte_count hasher.new.max_bytes bytes) }
    ensures some { OnErr result ((bytes : List ℕ) × Takes false (S.tells source.old) (S.left source.old) (S.left source.new) bytes) }
    ensures same { hasher.new.chunker.settings ≡ hasher.old.chunker.settings }
    ensures frame { Stays S.tells S.faults source.old source.new }
    ensures refused { IfErr result (IsSourceError S.tells S.left S.faults hasher.old.chunker.settings.max_source_bytes hasher.old.number source.old source.new) }
{
    loop {
        let count = read_block(source, hasher.number, block)?;
        hasher.add(&block[..count])?;
        if count < block.len() {
            return Ok(());
        }
    }
}

/// Reads until a block is full or the source ends.
fn read_block<S: Source>(source: &mut S, number: u32, block: &mut [u8]) -> Result<usize, StoreError>
    ensures filled { S.tells source.old ≡ true → Fills (S.left source.old) block.new result (S.left source.new) }
    ensures bound { IfOk result (λ count. count ≤ length block.new) }
    ensures frame { Called S.tells S.faults source.old source.new (IsErr result) }
    ensures reason { IsOkUnless result (StoreError.Io (Place.Source number)) }
{
    match read_full(source, block) {
        Ok(count) => Ok(count),
        Err(_) => Err(StoreError::Io(Place::Source(number))),
    }
}
