//! Traits of the records of a section, of their entries, and of references to records.

ghost use Rattle.std.specs.Prelude.{◌≡◌, ◌↔◌, ◌<◌, ◌^◌, ◌++◌, ℕ, List, IsTrue, OnOk, Result, length};
ghost use Rattle.std.specs.List.{AllByRecursion};
ghost use Rattle.xet_hash.specs.declared.error.StoreError.{StoreError};
ghost use Rattle.xet_shard_format.specs.declared.row.Row.{Row};
ghost use Rattle.xet_shard_format.specs.Rows.{RowFits, rows_bytes};
ghost use Rattle.xet_shard_format.specs.Records.{chunk_row, file_record_hash, file_rows, segment_row, verification_row, xorb_record_hash, xorb_rows};
ghost use Rattle.xet_codec.specs.Parsing.{Gives};
ghost use Rattle.xet_shard_format.specs.Reading.{file_record_at, xorb_at};

use crate::record::{
    FileDataSequenceEntry, FileMetadataExt, FileVerificationEntry, MDBFileInfo, MDBXorbInfo,
    XorbChunkSequenceEntry,
};
use crate::row::Row;
use crate::row_cursor::Rows;
use crate::{encoding, record_decoding};
use std::alloc::{AllocError, Global};
use xet_hash::{MerkleHash, StoreError};

/// A record of a section: that of a file or of a xorb.
pub trait Record: Drop {
    /// Its hash. The records of a section are in ascending order of hash.
    ghost hash_of: { Self → List ℕ };

    /// Its rows.
    ghost rows_of: { Self → List Row };

    /// How it is read after its header row.
    ghost record_at: { Row → List Row → Result (Self × List Row) StoreError };

    /// The hash.
    fn hash(&self) -> MerkleHash
        ensures { result ≡ hash_of self.now };

    /// Whether the two records are equal.
    fn same(&self, other: &Self) -> bool
        ensures { IsTrue result ↔ (self.now ≡ other.now) };

    /// The number of its rows. The caller ensures that it is below 2^32.
    fn num_rows(&self) -> u32
        requires { length (rows_of self.now) < 2 ^ 32 }
        ensures { result ≡ length (rows_of self.now) };

    /// Reads the record whose header row is `head`.
    fn read(alloc: Global, head: &Row, rows: &mut Rows) -> Result<Self, StoreError>
        ensures { Gives (λ r. (r, rows.new)) result (record_at head.now rows.old) };

    /// Appends the encoding of its rows.
    fn push(&self, encoding: &mut Vec<u8>) -> Result<(), AllocError>
        ensures encoding { OnOk result (encoding.new.items ≡ encoding.old.items ++ rows_bytes (rows_of self.now)) }
        ensures fits { OnOk result (AllByRecursion RowFits (rows_of self.now)) };
}

impl Record for MDBFileInfo {
    ghost hash_of = { file_record_hash };

    ghost rows_of = { file_rows };

    ghost record_at = { file_record_at };

    fn hash(&self) -> MerkleHash {
        self.metadata.file_hash
    }

    fn same(&self, other: &MDBFileInfo) -> bool {
        if self.metadata != other.metadata {
            return false;
        }
        if !same_segments(self.segments.as_slice(), other.segments.as_slice()) {
            return false;
        }
        if !same_verifications(self.verification.as_slice(), other.verification.as_slice()) {
            return false;
        }
        same_ext(&self.metadata_ext, &other.metadata_ext)
    }

    fn num_rows(&self) -> u32 {
        let ext = if self.metadata_ext.is_some() { 1 } else { 0 };
        1 + self.segments.as_slice().len() as u32 + self.verification.as_slice().len() as u32 + ext
    }

    fn read(alloc: Global, head: &Row, rows: &mut Rows) -> Result<MDBFileInfo, StoreError> {
        record_decoding::file(alloc, head, rows)
    }

    fn push(&self, encoding: &mut Vec<u8>) -> Result<(), AllocError> {
        encoding::push_file(encoding, self)
    }
}

impl Record for MDBXorbInfo {
    ghost hash_of = { xorb_record_hash };

    ghost rows_of = { xorb_rows };

    ghost record_at = { xorb_at };

    fn hash(&self) -> MerkleHash {
        self.metadata.xorb_hash
    }

    fn same(&self, other: &MDBXorbInfo) -> bool {
        if self.metadata != other.metadata {
            return false;
        }
        same_chunks(self.chunks.as_slice(), other.chunks.as_slice())
    }

    fn num_rows(&self) -> u32 {
        1 + self.chunks.as_slice().len() as u32
    }

    fn read(alloc: Global, head: &Row, rows: &mut Rows) -> Result<MDBXorbInfo, StoreError> {
        record_decoding::xorb(alloc, head, rows)
    }

    fn push(&self, encoding: &mut Vec<u8>) -> Result<(), AllocError> {
        encoding::push_xorb(encoding, self)
    }
}

/// Whether two files have the same segments.
fn same_segments(ours: &[FileDataSequenceEntry], theirs: &[FileDataSequenceEntry]) -> bool
    ensures { IsTrue result ↔ (ours.now ≡ theirs.now) }
{
    ours == theirs
}

/// Whether two files have the same verifications.
fn same_verifications(ours: &[FileVerificationEntry], theirs: &[FileVerificationEntry]) -> bool
    ensures { IsTrue result ↔ (ours.now ≡ theirs.now) }
{
    ours == theirs
}

/// Whether two files have the same metadata.
fn same_ext(ours: &Option<FileMetadataExt>, theirs: &Option<FileMetadataExt>) -> bool
    ensures { IsTrue result ↔ (ours.now ≡ theirs.now) }
{
    match (ours, theirs) {
        (None, None) => true,
        (Some(this), Some(other)) => this.sha256 == other.sha256,
        _ => false,
    }
}

/// Whether two xorbs have the same chunks.
fn same_chunks(ours: &[XorbChunkSequenceEntry], theirs: &[XorbChunkSequenceEntry]) -> bool
    ensures { IsTrue result ↔ (ours.now ≡ theirs.now) }
{
    ours == theirs
}

/// An entry of a record: a row after its header.
pub trait Entry {
    /// Its row.
    ghost row_of: { Self → Row };

    /// Its row.
    fn row(&self) -> Row
        ensures { result ≡ row_of self.now };
}

impl Entry for FileDataSequenceEntry {
    ghost row_of = { segment_row };

    fn row(&self) -> Row {
        Row {
            hash: self.xorb_hash,
            a: self.xorb_flags,
            b: self.unpacked_segment_bytes,
            c: self.chunk_index_start,
            d: self.chunk_index_end,
        }
    }
}

impl Entry for FileVerificationEntry {
    ghost row_of = { verification_row };

    fn row(&self) -> Row {
        Row::of_hash(self.range_hash)
    }
}

impl Entry for XorbChunkSequenceEntry {
    ghost row_of = { chunk_row };

    fn row(&self) -> Row {
        Row {
            hash: self.chunk_hash,
            a: self.chunk_byte_range_start,
            b: self.unpacked_segment_bytes,
            c: 0,
            d: 0,
        }
    }
}

/// A record, or a reference to one.
pub trait Lends<R> {
    /// The record.
    ghost lent: { Self → R };

    /// A reference to the record.
    fn lend(&self) -> &R
        ensures { result.now ≡ lent self.now };
}

impl<R> Lends<R> for R {
    ghost lent = { λ r. r };

    fn lend(&self) -> &R {
        self
    }
}

impl<R> Lends<R> for &R {
    ghost lent = { λ r. r.now };

    fn lend(&self) -> &R {
        self
    }
}
