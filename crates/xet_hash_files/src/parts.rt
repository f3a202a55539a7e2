//! Hashing a part of the sources on one thread.

ghost use Rattle.std.specs.Prelude.{◌≡◌, ◌<◌, ◌≤◌, ◌+◌, ◌^◌, [], IfErr, IfOk, IsOkUnless, length, replicate, vec_capacity};
ghost use Rattle.xet_hash_files.specs.internal.Sources.{AreHashed, AreLeft, IsPartError};

use crate::reading::hash_source;
use std::alloc::Global;
use xet_cut::Limits;
use xet_hash::StoreError;
use xet_io::Source;
use xet_store_disk::XetFileInfo;

/// Reads these sources to their ends, one after the other and all into one buffer, and returns the pointer record of each.
/// Errors name them from `first` on.
pub(crate) fn hash_part<S: Source>(
    alloc: Global,
    limits: &Limits,
    first: u32,
    sources: &mut [S],
) -> Result<Vec<XetFileInfo>, StoreError>
    requires numbers { first + length sources.old ≤ 2 ^ 20 }
    ensures hashed { IfOk result (λ infos. AreHashed S.tells S.left S.faults limits.now sources.old sources.new infos.items) }
    ensures left { AreLeft S.tells S.left S.faults sources.old sources.new }
    ensures refused { IfErr result (IsPartError S.tells S.left S.faults limits.now first sources.old sources.new) }
{
    let mut block = block_of(alloc, limits.block_bytes() as usize)?;
    let infos = room_for(alloc, sources.len())?;
    hash_each(alloc, limits, first, sources, &mut block, infos)
}

/// The same with a buffer, and an empty list with room for the records.
fn hash_each<S: Source>(
    alloc: Global,
    limits: &Limits,
    first: u32,
    sources: &mut [S],
    block: &mut [u8],
    infos: Vec<XetFileInfo>,
) -> Result<Vec<XetFileInfo>, StoreError>
    requires numbers { first + length sources.old ≤ 2 ^ 20 }
    requires block { 0 < length block.old }
    requires none { infos.items ≡ [] }
    requires room { length sources.old ≤ vec_capacity infos }
    ensures hashed { IfOk result (λ infos. AreHashed S.tells S.left S.faults limits.now sources.old sources.new infos.items) }
    ensures left { AreLeft S.tells S.left S.faults sources.old sources.new }
    ensures refused { IfErr result (IsPartError S.tells S.left S.faults limits.now first sources.old sources.new) }
{
    let mut infos = infos;
    'sources: for at in 0..sources.len() {
        let number = first + at as u32;
        let info = hash_source(alloc, limits, &mut sources[at], number, block)?;
        infos.push_reserved(info);
    }
    Ok(infos)
}

/// A buffer of so many bytes. The only error is `OutOfMemory`.
fn block_of(alloc: Global, len: usize) -> Result<Vec<u8>, StoreError>
    ensures block { IfOk result (λ block. block.items ≡ replicate len 0) }
    ensures memory { IsOkUnless result StoreError.OutOfMemory }
{
    Ok(vec![in alloc; 0u8; len]?)
}

/// An empty list with room for so many records. The only error is `OutOfMemory`.
fn room_for(alloc: Global, count: usize) -> Result<Vec<XetFileInfo>, StoreError>
    ensures none { IfOk result (λ infos. infos.items ≡ []) }
    ensures room { IfOk result (λ infos. count ≤ vec_capacity infos) }
    ensures memory { IsOkUnless result StoreError.OutOfMemory }
{
    Ok(Vec::with_capacity(alloc, count)?)
}
