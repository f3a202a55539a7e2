//! Records that are added to a shard in memory, each hash once.

ghost use Rattle.std.specs.Prelude.{◌≡◌, ◌≢◌, ◌↔◌, [], ◌∷◌, IsFalse, IsTrue, IsOkUnless, OnOk};
ghost use Rattle.std.specs.List.{AllByRecursion};
ghost use Rattle.xet_hash.specs.Hash.{sentinel};
ghost use Rattle.xet_shard.specs.Held.{held};
ghost use Rattle.xet_shard.specs.Union.{Agree};
ghost use Rattle.xet_shard_format.specs.Records.{IsFile, IsXorb, file_record_hash, xorb_record_hash};
ghost use Rattle.xet_shard_merge.specs.Groups.{both};
ghost use Rattle.xet_shard_merge.specs.internal.Grouping.{AreOwn, IsSameIf};

use xet_hash::StoreError;
use xet_shard::{MDBFileInfo, MDBInMemoryShard, MDBXorbInfo};
use xet_shard_format::section::Record;

/// A shard in memory has fewer bytes. A row is 48 bytes, so each section has fewer than 2^32 rows.
const MAX_SIZE: u64 = 48 << 32;

/// Adds the xorbs whose hash is not there.
pub(crate) fn add_blocks(
    shard: &mut MDBInMemoryShard,
    blocks: Vec<MDBXorbInfo>,
) -> Result<(), StoreError>
    requires { AreOwn xorb_record_hash IsXorb blocks.items }
    ensures added { OnOk result (shard.new ≡ held (both xorb_record_hash shard.old.blocks blocks.items) shard.old.files) }
    ensures memory { IsOkUnless result StoreError.OutOfMemory }
{
    for block in blocks {
        add_block(shard, block)?;
    }
    Ok(())
}

/// Adds a xorb, unless its hash is there.
fn add_block(shard: &mut MDBInMemoryShard, block: MDBXorbInfo) -> Result<(), StoreError>
    requires form { IsXorb block }
    requires hash { xorb_record_hash block ≢ sentinel }
    ensures added { OnOk result (shard.new ≡ held (both xorb_record_hash shard.old.blocks (block ∷ [])) shard.old.files) }
    ensures memory { IsOkUnless result StoreError.OutOfMemory }
{
    if shard.xorb_block(&block.hash()).is_some() {
        return Ok(());
    }
    let rows = block.chunks.as_slice().len() as u64;
    if shard
        .shard_file_size()
        .saturating_add(rows.saturating_mul(48))
        >= MAX_SIZE
    {
        return Err(StoreError::OutOfMemory);
    }
    shard.add_xorb_block(block)
}

/// Adds the files whose hash is not there.
pub(crate) fn add_files(
    shard: &mut MDBInMemoryShard,
    files: Vec<MDBFileInfo>,
) -> Result<(), StoreError>
    requires { AreOwn file_record_hash IsFile files.items }
    ensures added { OnOk result (shard.new ≡ held shard.old.blocks (both file_record_hash shard.old.files files.items)) }
    ensures memory { IsOkUnless result StoreError.OutOfMemory }
{
    for file in files {
        add_file(shard, file)?;
    }
    Ok(())
}

/// Adds a file, unless its hash is there.
fn add_file(shard: &mut MDBInMemoryShard, file: MDBFileInfo) -> Result<(), StoreError>
    requires form { IsFile file }
    requires hash { file_record_hash file ≢ sentinel }
    ensures added { OnOk result (shard.new ≡ held shard.old.blocks (both file_record_hash shard.old.files (file ∷ []))) }
    ensures memory { IsOkUnless result StoreError.OutOfMemory }
{
    if shard.file_info(&file.hash()).is_some() {
        return Ok(());
    }
    let rows = file.segments.as_slice().len() as u64;
    if shard
        .shard_file_size()
        .saturating_add(rows.saturating_mul(96))
        >= MAX_SIZE
    {
        return Err(StoreError::OutOfMemory);
    }
    shard.add_file_reconstruction_info(file)
}

/// Whether the xorbs of a shard and others agree: those of the same hash are equal.
pub(crate) fn blocks_agree(shard: &MDBInMemoryShard, blocks: &[MDBXorbInfo]) -> bool
    ensures yes { IsTrue result → Agree xorb_record_hash shard.now.blocks blocks.now }
    ensures no { IsFalse result → Agree xorb_record_hash shard.now.blocks blocks.now → ⊥ }
{
    for block in blocks {
        if !block_agrees(shard, block) {
            return false;
        }
    }
    true
}

/// Whether a xorb of the same hash is equal.
fn block_agrees(shard: &MDBInMemoryShard, block: &MDBXorbInfo) -> bool
    ensures { IsTrue result ↔ IsSameIf xorb_record_hash shard.now.blocks block.now }
{
    shard.recall_invariant();
    match shard.xorb_block(&block.hash()) {
        Some(other) => other.same(block),
        None => true,
    }
}

/// Whether the files of a shard and others agree: those of the same hash are equal.
pub(crate) fn files_agree(shard: &MDBInMemoryShard, files: &[MDBFileInfo]) -> bool
    ensures yes { IsTrue result → Agree file_record_hash shard.now.files files.now }
    ensures no { IsFalse result → Agree file_record_hash shard.now.files files.now → ⊥ }
{
    for file in files {
        if !file_agrees(shard, file) {
            return false;
        }
    }
    true
}

/// Whether a file of the same hash is equal.
fn file_agrees(shard: &MDBInMemoryShard, file: &MDBFileInfo) -> bool
    ensures { IsTrue result ↔ IsSameIf file_record_hash shard.now.files file.now }
{
    shard.recall_invariant();
    match shard.file_info(&file.hash()) {
        Some(other) => other.same(file),
        None => true,
    }
}
