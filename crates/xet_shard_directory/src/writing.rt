//! Writing of shard files: from a source, as a copy, and with another expiry or key.

ghost use Rattle.std.specs.Prelude.{◌≡◌, ◌<◌, ◌+◌, ◌^◌, ℕ, List, [], drop, min, true, length, Ok, Err, IfErr, IfOk, IsErrOf, OnErr, OnOk, Some};
ghost use Rattle.xet_codec.specs.Stops.{HasDiskReason};
ghost use Rattle.xet_hash.specs.Merkle.{chunk_hash};
ghost use Rattle.xet_io.specs.Disk.{File, bytes_at, file_at};
ghost use Rattle.xet_io.specs.Frame.{Stays, Unchanged};
ghost use Rattle.xet_shard.specs.Sections.{info_at};
ghost use Rattle.xet_shard.specs.Held.{never};
ghost use Rattle.xet_shard_directory.specs.Answers.{IsReadError};
ghost use Rattle.xet_shard_directory.specs.Values.{shard_value};
ghost use Rattle.xet_shard_file.specs.Names.{shard_path, temp_name};
ghost use Rattle.xet_shard_directory.specs.Writing.{IsFormatError, IsPutError, IsUnwrittenFrom, IsUnwrittenIfMalformed, IsWriteError, KeptOrWrote, KeptOrWroteFrom, Wrote, WroteFrom, path_of, with_expiry};

use crate::shard_file::MDBShardFile;
use std::alloc::{AllocError, Global};
use xet_base::Text;
use xet_codec::store_error;
use xet_hash::{MerkleHash, Place, StoreError, What, compute_data_hash};
use xet_io::{Disk, SliceReader, Source, Unread, read_all, read_file};
use xet_shard::{MDBShardFileFooter, MDBShardInfo};
use xet_shard_file::{put_through, shard_path, temp_name};
use xet_shard_format::encoding::push_footer;

/// The maximum number of bytes that are read of a source: 2^40.
const MAX_LEN: usize = 1 << 40;

/// The maximum number of bytes of one read.
const BLOCK: usize = 1 << 20;

impl MDBShardFile {
    /// Reads a source to its end and writes its bytes into a folder, durably, under the name of their digest. Returns
    /// the new shard file. The caller ensures that fewer than 2^40 bytes are left, if the source is observable.
    /// Nothing is written if the header or the footer is malformed; then the error is that of the first check that
    /// fails. `TooLarge(Input)` if a source that is not observable has more than 2^40 bytes, and `Io(Input)` if
    /// it failed. After any other error the new file is as it was, or the write has completed; a temporary file may be
    /// left. After an error a prefix of the source was taken.
    pub fn write_out_from_reader<D: Disk, R: Source>(
        alloc: Global,
        disk: &mut D,
        target: &str,
        source: &mut R,
    ) -> Result<MDBShardFile, StoreError>
        requires { R.tells source.old ≡ true → length (R.left source.old) < 2 ^ 40 }
        ensures written { D.tells disk.old ≡ true → R.tells source.old ≡ true → IfOk result (Wrote (D.files disk.old) (D.files disk.new) target.now (R.left source.old)) }
        ensures ended { R.tells source.old ≡ true → OnOk result (R.left source.new ≡ []) }
        ensures taken { R.tells source.old ≡ true → OnErr result ((n : ℕ) × (R.left source.new ≡ drop n (R.left source.old))) }
        ensures refused { D.tells disk.old ≡ true → R.tells source.old ≡ true → OnErr result (KeptOrWrote (D.files disk.old) (D.files disk.new) target.now (R.left source.old)) }
        ensures malformed { D.tells disk.old ≡ true → R.tells source.old ≡ true → IfErr result (IsUnwrittenIfMalformed (D.files disk.old) (D.files disk.new) (R.left source.old)) }
        ensures format { R.tells source.old ≡ true → IfErr result (λ e. IsFormatError e → info_at (R.left source.old) ≡ Err e) }
        ensures value { R.tells source.old ≡ true → IfOk result (λ s. (s.shard_hash ≡ chunk_hash (R.left source.old)) × (s.path ≡ path_of target.now (R.left source.old)) × (info_at (R.left source.old) ≡ Ok s.shard)) }
        ensures fits { R.tells source.old ≡ true → IsErrOf result (StoreError.TooLarge What.Input) → ⊥ }
        // The same for a source that is not observable: some bytes are written.
        ensures some { D.tells disk.old ≡ true → IfOk result (λ s. (bytes : List ℕ) × Wrote (D.files disk.old) (D.files disk.new) target.now bytes s) }
        ensures others { D.tells disk.old ≡ true → OnErr result ((bytes : List ℕ) × KeptOrWrote (D.files disk.old) (D.files disk.new) target.now bytes) }
        ensures disk { Stays D.tells D.faults disk.old disk.new }
        ensures source { Stays R.tells R.faults source.old source.new }
        ensures reason { IfErr result (IsWriteError (D.faults disk.old) (D.faults disk.new) (R.faults source.old) (R.faults source.new)) }
    {
        match read_all(alloc, source, BLOCK, MAX_LEN) {
            Ok(bytes) => write_shard_file(alloc, disk, target, &bytes),
            Err(Unread::OutOfMemory) => Err(StoreError::OutOfMemory),
            Err(Unread::Failed) => Err(StoreError::Io(Place::Input)),
            Err(Unread::TooLong) => Err(StoreError::TooLarge(What::Input)),
        }
    }

    /// Writes the bytes of the shard file into a folder, durably, under the name of their digest, and returns the new
    /// shard file. `FileNotFound` if the file is not there. Nothing is written if its header or footer is malformed;
    /// then the error is that of the first check that fails. After any other error the new file is as it was, or the
    /// write has completed; a temporary file may be left.
    pub fn copy_into_target_directory<D: Disk>(
        &self,
        alloc: Global,
        disk: &mut D,
        target: &str,
    ) -> Result<MDBShardFile, StoreError>
        ensures written { D.tells disk.old ≡ true → IfOk result (WroteFrom (D.files disk.old) (D.files disk.new) target.now (bytes_at (D.files disk.old) self.now.path) (λ bytes. bytes)) }
        ensures refused { D.tells disk.old ≡ true → OnErr result (KeptOrWroteFrom (D.files disk.old) (D.files disk.new) target.now (bytes_at (D.files disk.old) self.now.path) (λ bytes. bytes)) }
        ensures unwritten { D.tells disk.old ≡ true → IfErr result (IsUnwrittenFrom (D.files disk.old) (D.files disk.new) (bytes_at (D.files disk.old) self.now.path) (λ bytes. bytes)) }
        ensures named { IfOk result (λ s. s.path ≡ shard_path target.now s.shard_hash) }
        ensures frame { Stays D.tells D.faults disk.old disk.new }
        ensures reason { IfErr result (IsReadError (D.faults disk.old) (D.faults disk.new)) }
    {
        match read_file(disk, alloc, self.path.as_str()) {
            Ok(Some(bytes)) => write_shard_file(alloc, disk, target, &bytes),
            Ok(None) => Err(StoreError::FileNotFound),
            Err(refusal) => Err(store_error(refusal)),
        }
    }

    /// Writes the bytes of the shard file before its footer into a folder, and after them the footer of this value with
    /// another creation time and expiry, in seconds since the Unix epoch. Returns the new shard file. The footer in the
    /// file is not read. `FileNotFound` if the file is not there. Nothing is written if the header or the new footer is
    /// malformed; then the error is that of the first check that fails. After any other error the new file is as it was,
    /// or the write has completed; a temporary file may be left.
    pub fn export_with_specific_expiration<D: Disk>(
        &self,
        alloc: Global,
        disk: &mut D,
        target: &str,
        expiration: u64,
        creation: u64,
    ) -> Result<MDBShardFile, StoreError>
        ensures written { D.tells disk.old ≡ true → IfOk result (WroteFrom (D.files disk.old) (D.files disk.new) target.now (bytes_at (D.files disk.old) self.now.path) (with_expiry self.now.shard.metadata creation expiration)) }
        ensures refused { D.tells disk.old ≡ true → OnErr result (KeptOrWroteFrom (D.files disk.old) (D.files disk.new) target.now (bytes_at (D.files disk.old) self.now.path) (with_expiry self.now.shard.metadata creation expiration)) }
        ensures unwritten { D.tells disk.old ≡ true → IfErr result (IsUnwrittenFrom (D.files disk.old) (D.files disk.new) (bytes_at (D.files disk.old) self.now.path) (with_expiry self.now.shard.metadata creation expiration)) }
        ensures named { IfOk result (λ s. s.path ≡ shard_path target.now s.shard_hash) }
        ensures frame { Stays D.tells D.faults disk.old disk.new }
        ensures reason { IfErr result (IsReadError (D.faults disk.old) (D.faults disk.new)) }
    {
        match read_file(disk, alloc, self.path.as_str()) {
            Ok(Some(mut bytes)) => {
                put_footer(&mut bytes, self.shard.metadata, creation, expiration)?;
                write_shard_file(alloc, disk, target, &bytes)
            }
            Ok(None) => Err(StoreError::FileNotFound),
            Err(refusal) => Err(store_error(refusal)),
        }
    }

    /// Writes the shard into a folder as created at the time `now` and valid for `valid_for` seconds from then; it
    /// expires at 2^64 - 1 at the latest. The rest is as in `export_with_specific_expiration`.
    pub fn export_with_expiration<D: Disk>(
        &self,
        alloc: Global,
        disk: &mut D,
        target: &str,
        valid_for: u64,
        now: u64,
    ) -> Result<MDBShardFile, StoreError>
        ensures written { D.tells disk.old ≡ true → IfOk result (WroteFrom (D.files disk.old) (D.files disk.new) target.now (bytes_at (D.files disk.old) self.now.path) (with_expiry self.now.shard.metadata now (min (now + valid_for) never))) }
        ensures refused { D.tells disk.old ≡ true → OnErr result (KeptOrWroteFrom (D.files disk.old) (D.files disk.new) target.now (bytes_at (D.files disk.old) self.now.path) (with_expiry self.now.shard.metadata now (min (now + valid_for) never))) }
        ensures unwritten { D.tells disk.old ≡ true → IfErr result (IsUnwrittenFrom (D.files disk.old) (D.files disk.new) (bytes_at (D.files disk.old) self.now.path) (with_expiry self.now.shard.metadata now (min (now + valid_for) never))) }
        ensures named { IfOk result (λ s. s.path ≡ shard_path target.now s.shard_hash) }
        ensures frame { Stays D.tells D.faults disk.old disk.new }
        ensures reason { IfErr result (IsReadError (D.faults disk.old) (D.faults disk.new)) }
    {
        let expiration = now.saturating_add(valid_for);
        self.export_with_specific_expiration(alloc, disk, target, expiration, now)
    }
}

/// Writes the bytes of a shard into a folder, durably, under the name of their digest.
pub fn write_shard_file<D: Disk>(
    alloc: Global,
    disk: &mut D,
    target: &str,
    bytes: &[u8],
) -> Result<MDBShardFile, StoreError>
    ensures written { D.tells disk.old ≡ true → IfOk result (Wrote (D.files disk.old) (D.files disk.new) target.now bytes.now) }
    ensures refused { D.tells disk.old ≡ true → OnErr result (KeptOrWrote (D.files disk.old) (D.files disk.new) target.now bytes.now) }
    ensures malformed { D.tells disk.old ≡ true → IfErr result (IsUnwrittenIfMalformed (D.files disk.old) (D.files disk.new) bytes.now) }
    ensures format { IfErr result (λ e. IsFormatError e → info_at bytes.now ≡ Err e) }
    ensures value { IfOk result (λ s. (s.shard_hash ≡ chunk_hash bytes.now) × (s.path ≡ path_of target.now bytes.now) × (info_at bytes.now ≡ Ok s.shard)) }
    ensures frame { Stays D.tells D.faults disk.old disk.new }
    ensures reason { IfErr result (IsPutError (D.faults disk.old) (D.faults disk.new)) }
{
    let shard = info_of_bytes(bytes)?;
    let hash = compute_data_hash(bytes);
    let path = Text::new(shard_path(alloc, target, &hash)?);
    let temp = temp_name(alloc, path.as_str())?;
    write_named_file(disk, temp.as_str(), path, hash, shard, bytes)
}

/// Writes the bytes of a shard under a path, durably, as `write_shard_file` does. The caller passes the name of the
/// temporary file, and the value of the new file but for its modification time. Allocates nothing itself.
pub fn write_named_file<D: Disk>(
    disk: &mut D,
    temp: &str,
    path: Text,
    hash: MerkleHash,
    shard: MDBShardInfo,
    bytes: &[u8],
) -> Result<MDBShardFile, StoreError>
    requires temp { temp.now ≡ temp_name path }
    requires hash { hash ≡ chunk_hash bytes.now }
    requires shard { info_at bytes.now ≡ Ok shard }
    ensures written { D.tells disk.old ≡ true → (target : List ℕ) → path ≡ path_of target bytes.now → IfOk result (Wrote (D.files disk.old) (D.files disk.new) target bytes.now) }
    ensures refused { D.tells disk.old ≡ true → (target : List ℕ) → path ≡ path_of target bytes.now → OnErr result (KeptOrWrote (D.files disk.old) (D.files disk.new) target bytes.now) }
    ensures value { IfOk result (λ s. (s.shard_hash ≡ hash) × (s.path ≡ path) × (s.shard ≡ shard)) }
    ensures frame { Stays D.tells D.faults disk.old disk.new }
    ensures reason { IfErr result (HasDiskReason (D.faults disk.old) (D.faults disk.new)) }
{
    put_through(disk, temp, path.as_str(), bytes)?;
    value_of(disk, path, hash, shard)
}

/// The value of the shard file at a path. The caller passes its hash, and its header and footer.
pub(crate) fn value_of<D: Disk>(
    disk: &mut D,
    path: Text,
    hash: MerkleHash,
    shard: MDBShardInfo,
) -> Result<MDBShardFile, StoreError>
    ensures time { D.tells disk.old ≡ true → (f : File) → file_at (D.files disk.old) path ≡ Some f → IfOk result (λ s. s.last_modified_time ≡ f.modified) }
    ensures value { IfOk result (λ s. s ≡ shard_value hash path shard s.last_modified_time) }
    ensures frame { Unchanged D.files D.tells D.faults disk.old disk.new }
    ensures reason { IfErr result (HasDiskReason (D.faults disk.old) (D.faults disk.new)) }
{
    let last_modified_time = modification_time(disk, path.as_str())?;
    Ok(MDBShardFile {
        shard_hash: hash,
        path,
        shard,
        last_modified_time,
    })
}

/// The header and the footer of a shard with these bytes.
pub(crate) fn info_of_bytes(bytes: &[u8]) -> Result<MDBShardInfo, StoreError>
    ensures exact { result ≡ info_at bytes.now }
    ensures error { IfErr result IsFormatError }
{
    let mut reader = SliceReader::new(bytes);
    MDBShardInfo::load_from_reader(&mut reader)
}

/// The modification time of a file; 0 if there is none.
fn modification_time<D: Disk>(disk: &mut D, path: &str) -> Result<u64, StoreError>
    ensures exact { D.tells disk.old ≡ true → (f : File) → file_at (D.files disk.old) path.now ≡ Some f → IfOk result (λ m. m ≡ f.modified) }
    ensures frame { Unchanged D.files D.tells D.faults disk.old disk.new }
    ensures reason { IfErr result (HasDiskReason (D.faults disk.old) (D.faults disk.new)) }
{
    match disk.stat(path) {
        Ok(Some((_, modified))) => Ok(modified),
        Ok(None) => Ok(0),
        Err(refusal) => Err(store_error(refusal)),
    }
}

/// Replaces the footer of a shard's bytes by one with another creation time and expiry.
fn put_footer(
    bytes: &mut Vec<u8>,
    footer: MDBShardFileFooter,
    creation: u64,
    expiration: u64,
) -> Result<(), AllocError>
    ensures { OnOk result (bytes.new.items ≡ with_expiry footer creation expiration bytes.old.items) }
{
    let mut footer = footer;
    footer.shard_creation_timestamp = creation;
    footer.shard_key_expiry = expiration;
    bytes.truncate(footer.footer_offset as usize);
    push_footer(bytes, &footer)
}
