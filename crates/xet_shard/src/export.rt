//! Export of a shard under a key.

ghost use Rattle.std.specs.Prelude.{◌≡◌, ◌≢◌, ◌<◌, ◌+◌, ◌^◌, ℕ, [], None, true, min, IfErr, IfOk, IsErrOf, OnErr, OnOk, length, map};
ghost use Rattle.xet_hash.specs.Hash.{zero_hash};
ghost use Rattle.xet_shard.specs.Export.{HasPrefix, IsExport, IsExportError, IsUnwritten, exported, files_wanted, keyed_block, keyed_chunk};
ghost use Rattle.xet_shard.specs.Held.{never};
ghost use Rattle.xet_codec.specs.Parsing.{GivesUnlessFault};
ghost use Rattle.xet_shard_format.specs.Reading.{IsShardError};
ghost use Rattle.xet_shard_format.specs.Records.{AreRecords, IsFile, IsXorb, file_record_hash, file_section, xorb_record_hash, xorb_section};
ghost use Rattle.xet_shard_format.specs.Encoding.{shard};
ghost use Rattle.xet_io.specs.Frame.{Called, ReadFrom};

use crate::info::MDBShardInfo;
use crate::reader::sections::{blocks, files};
use crate::write::write_bytes;
use std::alloc::Global;
use std::mem;
use xet_base::Items;
use xet_hash::{HMACKey, Place, StoreError};
use xet_io::{ReadAt, Sink};
use xet_shard_format::shard_encoding::{Lookups, write_with_lookups};
use xet_shard_format::{MDBFileInfo, MDBShardFileFooter, MDBXorbInfo, XorbChunkSequenceEntry};

impl MDBShardInfo {
    /// Writes the shard again as a keyed shard, in which chunk hashes are hashed under `key`. `now` is the
    /// creation time, in seconds since the Unix epoch, and `now + valid_for` the expiry, at most 2^64 - 1.
    /// `files` selects the files with their lookup table, `xorb_lookup` and `chunk_lookup` select these
    /// tables. The caller ensures that the key is not zero, and that the shard is not keyed.
    /// The xorbs are read, and the files if they are selected. If these are malformed, the error is that of
    /// the first check that fails, and nothing was written. The error is `Io(Input)` if the reader failed,
    /// and `Io(Output)` if the sink failed. After these errors a prefix of the export was written; it may be
    /// empty.
    pub fn export_as_keyed_shard<R: ReadAt, W: Sink>(
        &self,
        alloc: Global,
        reader: &mut R,
        sink: &mut W,
        key: HMACKey,
        valid_for: u64,
        files: bool,
        xorb_lookup: bool,
        chunk_lookup: bool,
        now: u64,
    ) -> Result<(), StoreError>
        requires key { key ≢ zero_hash }
        requires unkeyed { self.now.metadata.chunk_hash_hmac_key ≡ zero_hash }
        ensures written { R.tells reader.old ≡ true → W.tells sink.old ≡ true → OnOk result (IsExport (record { files = files; xorbs = xorb_lookup; chunks = chunk_lookup }) (exported files key valid_for now self.now.metadata (R.bytes reader.old)) (W.written sink.old) (W.written sink.new)) }
        ensures prefix { R.tells reader.old ≡ true → W.tells sink.old ≡ true → OnErr result (HasPrefix (record { files = files; xorbs = xorb_lookup; chunks = chunk_lookup }) (exported files key valid_for now self.now.metadata (R.bytes reader.old)) (W.written sink.old) (W.written sink.new)) }
        ensures refused { R.tells reader.old ≡ true → IfErr result (IsUnwritten (exported files key valid_for now self.now.metadata (R.bytes reader.old))) }
        ensures errors { IfErr result IsExportError }
        ensures reader { ReadFrom R.bytes R.tells R.faults R.lent reader.old reader.new (IsErrOf result (StoreError.Io Place.Input)) }
        ensures sink { Called W.tells W.faults sink.old sink.new (IsErrOf result (StoreError.Io Place.Output)) }
    {
        let lookups = Lookups {
            files,
            xorbs: xorb_lookup,
            chunks: chunk_lookup,
        };
        let encoding = keyed_bytes(alloc, reader, &self.metadata, lookups, key, valid_for, now)?;
        write_bytes(sink, &encoding)
    }
}

/// The encoding of the exported shard.
fn keyed_bytes<R: ReadAt>(
    alloc: Global,
    reader: &mut R,
    f: &MDBShardFileFooter,
    lookups: Lookups,
    key: HMACKey,
    valid_for: u64,
    now: u64,
) -> Result<Vec<u8>, StoreError>
    ensures encoding { R.tells reader.old ≡ true → IfOk result (λ encoding. IsExport (record { files = lookups.files; xorbs = lookups.xorbs; chunks = lookups.chunks }) (exported lookups.files key valid_for now f.now (R.bytes reader.old)) [] encoding.items) }
    ensures refused { R.tells reader.old ≡ true → IfErr result (IsUnwritten (exported lookups.files key valid_for now f.now (R.bytes reader.old))) }
    ensures errors { IfErr result IsShardError }
    ensures frame { ReadFrom R.bytes R.tells R.faults R.lent reader.old reader.new (IsErrOf result (StoreError.Io Place.Input)) }
{
    let (blocks, files) = keyed_records(alloc, reader, f, key, lookups.files)?;
    let expiry = now.saturating_add(valid_for);
    let (encoding, _) = write_with_lookups::<MDBXorbInfo, MDBFileInfo>(
        alloc, lookups, &blocks, &files, key, now, expiry,
    )?;
    Ok(encoding)
}

/// The xorbs with keyed chunk hashes, and the files if `with_files`.
fn keyed_records<R: ReadAt>(
    alloc: Global,
    reader: &mut R,
    f: &MDBShardFileFooter,
    key: HMACKey,
    with_files: bool,
) -> Result<(Vec<MDBXorbInfo>, Vec<MDBFileInfo>), StoreError>
    ensures exact { R.tells reader.old ≡ true → (valid_for now : ℕ)
        → GivesUnlessFault (λ x. shard x.0.items x.1.items key now (min (now + valid_for) never)) result (exported with_files key valid_for now f.now (R.bytes reader.old)) }
    ensures blocks { IfOk result (λ x. AreRecords xorb_record_hash IsXorb None x.0.items) }
    ensures files { IfOk result (λ x. AreRecords file_record_hash IsFile None x.1.items) }
    ensures few_blocks { IfOk result (λ x. length (xorb_section x.0.items) < 2 ^ 32) }
    ensures few_files { IfOk result (λ x. length (file_section x.1.items) < 2 ^ 32) }
    ensures errors { IfErr result IsShardError }
    ensures frame { ReadFrom R.bytes R.tells R.faults R.lent reader.old reader.new (IsErrOf result (StoreError.Io Place.Input)) }
{
    let found = wanted_files(alloc, reader, f, with_files)?;
    let mut keyed = blocks(alloc, reader, f)?;
    key_blocks(alloc, &mut keyed, key);
    Ok((keyed, found))
}

/// The files if `with_files`, otherwise none.
fn wanted_files<R: ReadAt>(
    alloc: Global,
    reader: &mut R,
    f: &MDBShardFileFooter,
    with_files: bool,
) -> Result<Vec<MDBFileInfo>, StoreError>
    ensures exact { R.tells reader.old ≡ true → GivesUnlessFault (λ v. v.items) result (files_wanted with_files f.now (R.bytes reader.old)) }
    ensures form { IfOk result (λ v. AreRecords file_record_hash IsFile None v.items) }
    ensures few { IfOk result (λ v. length (file_section v.items) < 2 ^ 32) }
    ensures errors { IfErr result IsShardError }
    ensures frame { ReadFrom R.bytes R.tells R.faults R.lent reader.old reader.new (IsErrOf result (StoreError.Io Place.Input)) }
{
    if with_files {
        files(alloc, reader, f)
    } else {
        Ok(Vec::new(alloc))
    }
}

/// Replaces the chunk hashes of these xorbs by keyed ones.
fn key_blocks(alloc: Global, blocks: &mut [MDBXorbInfo], key: HMACKey)
    ensures { blocks.new ≡ map (keyed_block key) blocks.old }
{
    for block in blocks.iter_mut() {
        key_block(alloc, block, key);
    }
}

/// Replaces the chunk hashes of a xorb by keyed ones.
fn key_block(alloc: Global, block: &mut MDBXorbInfo, key: HMACKey)
    ensures { block.new ≡ keyed_block key block.old }
{
    let mut chunks = mem::replace(&mut block.chunks, Items::new(alloc)).into_vec();
    key_chunks(&mut chunks, key);
    block.chunks = Items::from_vec(chunks);
}

/// Replaces the hashes of these chunks by keyed ones.
fn key_chunks(chunks: &mut [XorbChunkSequenceEntry], key: HMACKey)
    ensures { chunks.new ≡ map (keyed_chunk key) chunks.old }
{
    for chunk in chunks.iter_mut() {
        chunk.chunk_hash = chunk.chunk_hash.hmac(key);
    }
}
