//! Encoding of a shard with all lookup tables, and writing to a sink.

ghost use Rattle.std.specs.Prelude.{◌≡◌, ◌<◌, ◌+◌, ◌*◌, ◌^◌, ◌++◌, ℕ, IfErr, IfOk, IsErrOf, IsOkUnless, OnOk, None, cond, length, map, take, true};
ghost use Rattle.xet_shard.specs.WriteErrors.{IsWriteError};
ghost use Rattle.xet_shard_format.specs.Records.{AreRecords, IsFile, IsXorb, file_record_hash, file_section, xorb_record_hash, xorb_section};
ghost use Rattle.xet_shard_format.specs.Lookups.{all_lookups};
ghost use Rattle.xet_shard_format.specs.Encoding.{Fits, IsShardEncoding, footer_of, full_shard_bytes, header, shard};
ghost use Rattle.xet_io.specs.Frame.{Called};

use crate::info::MDBShardInfo;
use std::alloc::Global;
use xet_codec::write_piece;
use xet_hash::{HMACKey, Place, StoreError};
use xet_io::Sink;
use xet_shard_format::header_footer::HEADER;
use xet_shard_format::shard_encoding::{ALL_LOOKUPS, write_with_lookups};
use xet_shard_format::{MDBFileInfo, MDBXorbInfo};

/// Encodes the shard with these xorbs and files, in the given order, with all lookup tables; also returns its
/// header and footer. The result is a well-formed shard if the records are well formed and their hashes
/// ascend. The caller ensures that each section has fewer than 2^32 rows, the end row included. The buffer of
/// the result is allocated once, with the exact length. The only error is `StoreError::OutOfMemory`.
pub fn write_shard(
    alloc: Global,
    blocks: &[&MDBXorbInfo],
    files: &[&MDBFileInfo],
    key: HMACKey,
    creation: u64,
    expiry: u64,
) -> Result<(Vec<u8>, MDBShardInfo), StoreError>
    requires few_files { length (file_section (map (λ f. f.now) files.now)) < 2 ^ 32 }
    requires few_blocks { length (xorb_section (map (λ x. x.now) blocks.now)) < 2 ^ 32 }
    ensures encoding { IfOk result (λ x. x.0.items ≡ full_shard_bytes (shard (map (λ x. x.now) blocks.now) (map (λ f. f.now) files.now) key creation expiry)) }
    ensures info { IfOk result (λ x. x.1 ≡ record { header = header; metadata = footer_of all_lookups (shard (map (λ x. x.now) blocks.now) (map (λ f. f.now) files.now) key creation expiry) }) }
    ensures fits { OnOk result (Fits (shard (map (λ x. x.now) blocks.now) (map (λ f. f.now) files.now) key creation expiry)) }
    // If the records are well formed and their hashes ascend, the bytes are a shard.
    ensures shard { AreRecords xorb_record_hash IsXorb None (map (λ x. x.now) blocks.now) → AreRecords file_record_hash IsFile None (map (λ f. f.now) files.now)
        → IfOk result (λ x. IsShardEncoding x.0.items (shard (map (λ x. x.now) blocks.now) (map (λ f. f.now) files.now) key creation expiry)) }
    ensures memory { IsOkUnless result StoreError.OutOfMemory }
{
    let (encoding, metadata) = write_with_lookups::<&MDBXorbInfo, &MDBFileInfo>(
        alloc,
        ALL_LOOKUPS,
        blocks,
        files,
        key,
        creation,
        expiry,
    )?;
    let header = HEADER;
    Ok((encoding, MDBShardInfo { header, metadata }))
}

/// Writes the bytes of a shard to a sink. In every case a prefix of them was written. The error is
/// `Io(Output)` if the sink failed, or `OutOfMemory`.
pub(crate) fn write_bytes<W: Sink>(sink: &mut W, encoding: &[u8]) -> Result<(), StoreError>
    ensures whole { W.tells sink.old ≡ true → OnOk result (W.written sink.new ≡ W.written sink.old ++ encoding.now) }
    ensures prefix { W.tells sink.old ≡ true → (n : ℕ) × (W.written sink.new ≡ W.written sink.old ++ take n encoding.now) }
    ensures errors { IfErr result IsWriteError }
    ensures frame { Called W.tells W.faults sink.old sink.new (IsErrOf result (StoreError.Io Place.Output)) }
{
    match write_piece(sink, encoding) {
        Ok(()) => Ok(()),
        Err(error) => Err(error),
    }
}
