//! The records of a shard: those of files and those of xorbs.

ghost use Rattle.std.specs.Prelude.{◌≡◌, ◌<◌, ◌≤◌, ◌^◌, ◌*◌, [], IfOk, IsOkUnless, length};
ghost use Rattle.xet_hash.specs.Hash.{zero_hash};
ghost use Rattle.xet_shard_format.specs.Boundaries.{boundaries_from};
ghost use Rattle.xet_shard_format.specs.RecordSizes.{file_record_size, xorb_record_size};
ghost use Rattle.xet_shard_format.specs.Records.{chunk_bytes, file_record_hash, flags_of, segment_bytes, xorb_record_hash};

use crate::sha256::Sha256;
use std::alloc::Global;
use xet_base::Items;
use xet_hash::{MerkleHash, StoreError};

/// The header of a file record.
#[derive(Clone, Copy, PartialEq, Eq, Debug)]
pub struct FileDataSequenceHeader {
    /// The file hash.
    pub file_hash: MerkleHash,
    /// 2^31 if each segment has a verification row, plus 2^30 if there is a metadata row.
    pub file_flags: u32,
    /// The number of segments.
    pub num_entries: u32,
}

impl FileDataSequenceHeader {
    /// The header of a file record with `num_entries` segments. `verification` says whether there are
    /// verification rows, `metadata_ext` whether there is a metadata row.
    pub fn new(
        file_hash: MerkleHash,
        num_entries: u32,
        verification: bool,
        metadata_ext: bool,
    ) -> FileDataSequenceHeader
        ensures { result ≡ record { file_hash = file_hash; file_flags = flags_of verification metadata_ext; num_entries = num_entries } }
    {
        FileDataSequenceHeader {
            file_hash,
            file_flags: flags_of(verification, metadata_ext),
            num_entries,
        }
    }
}

/// The flags of a file header.
fn flags_of(verification: bool, metadata_ext: bool) -> u32
    ensures { result ≡ flags_of verification metadata_ext }
{
    match (verification, metadata_ext) {
        (false, false) => 0,
        (false, true) => 1 << 30,
        (true, false) => 1 << 31,
        (true, true) => (1 << 31) + (1 << 30),
    }
}

impl Default for FileDataSequenceHeader {
    ghost is_default = { λ h. h ≡ record { file_hash = zero_hash; file_flags = 0; num_entries = 0 } };

    fn default() -> FileDataSequenceHeader {
        FileDataSequenceHeader::new(MerkleHash::default(), 0, false, false)
    }
}

/// A segment of a file: a run of chunks of one xorb.
#[derive(Clone, Copy, PartialEq, Eq, Debug)]
pub struct FileDataSequenceEntry {
    /// The xorb hash.
    pub xorb_hash: MerkleHash,
    /// 0 in a well-formed record.
    pub xorb_flags: u32,
    /// The uncompressed length of the run, in bytes.
    pub unpacked_segment_bytes: u32,
    /// The index of the run's first chunk in the xorb, from 0.
    pub chunk_index_start: u32,
    /// The index after the run's last chunk.
    pub chunk_index_end: u32,
}

impl FileDataSequenceEntry {
    /// The segment of the chunks `chunk_index_start`..`chunk_index_end` of a xorb, the end excluded, with
    /// `unpacked_segment_bytes` uncompressed bytes.
    pub fn new(
        xorb_hash: MerkleHash,
        unpacked_segment_bytes: u32,
        chunk_index_start: u32,
        chunk_index_end: u32,
    ) -> FileDataSequenceEntry
        ensures { result ≡ record { xorb_hash = xorb_hash; xorb_flags = 0; unpacked_segment_bytes = unpacked_segment_bytes; chunk_index_start = chunk_index_start; chunk_index_end = chunk_index_end } }
    {
        FileDataSequenceEntry {
            xorb_hash,
            xorb_flags: 0,
            unpacked_segment_bytes,
            chunk_index_start,
            chunk_index_end,
        }
    }
}

impl Default for FileDataSequenceEntry {
    ghost is_default = { λ s. s ≡ record { xorb_hash = zero_hash; xorb_flags = 0; unpacked_segment_bytes = 0; chunk_index_start = 0; chunk_index_end = 0 } };

    fn default() -> FileDataSequenceEntry {
        FileDataSequenceEntry::new(MerkleHash::default(), 0, 0, 0)
    }
}

/// The verification of a segment.
#[derive(Clone, Copy, PartialEq, Eq, Debug)]
pub struct FileVerificationEntry {
    /// The range hash: the digest of the hashes of the segment's chunks, under the verification key.
    pub range_hash: MerkleHash,
}

impl FileVerificationEntry {
    /// The verification with this range hash.
    pub fn new(range_hash: MerkleHash) -> FileVerificationEntry
        ensures { result ≡ record { range_hash = range_hash } }
    {
        FileVerificationEntry { range_hash }
    }
}

impl Default for FileVerificationEntry {
    ghost is_default = { λ v. v ≡ record { range_hash = zero_hash } };

    fn default() -> FileVerificationEntry {
        FileVerificationEntry::new(MerkleHash::default())
    }
}

/// The metadata of a file.
#[derive(Clone, Copy, PartialEq, Eq, Debug)]
pub struct FileMetadataExt {
    /// The SHA-256 of the file's bytes.
    pub sha256: Sha256,
}

impl FileMetadataExt {
    /// The metadata with this SHA-256.
    pub fn new(sha256: Sha256) -> FileMetadataExt
        ensures { result ≡ record { sha256 = sha256 } }
    {
        FileMetadataExt { sha256 }
    }
}

impl Default for FileMetadataExt {
    ghost is_default = { λ m. m ≡ record { sha256 = zero_hash } };

    fn default() -> FileMetadataExt {
        FileMetadataExt::new(Sha256::default())
    }
}

/// A file record. Its segments, in order, reconstruct the file.
#[derive(Debug, Drop)]
pub struct MDBFileInfo {
    /// The header.
    pub metadata: FileDataSequenceHeader,
    /// The segments, in order.
    pub segments: Items<FileDataSequenceEntry>,
    /// One verification for each segment, or none.
    pub verification: Items<FileVerificationEntry>,
    /// The metadata, if any.
    pub metadata_ext: Option<FileMetadataExt>,
}

impl MDBFileInfo {
    /// A record without segments, whose hash is zero. Allocates nothing.
    pub fn default(alloc: Global) -> MDBFileInfo
        ensures { result ≡ record { metadata = record { file_hash = zero_hash; file_flags = 0; num_entries = 0 }; segments = []; verification = []; metadata_ext = None } }
    {
        MDBFileInfo {
            metadata: FileDataSequenceHeader::default(),
            segments: Items::new(alloc),
            verification: Items::new(alloc),
            metadata_ext: None,
        }
    }

    /// The file hash.
    pub fn hash(&self) -> MerkleHash
        ensures { result ≡ file_record_hash self.now }
    {
        self.metadata.file_hash
    }

    /// A copy. The only error is `StoreError::OutOfMemory`.
    pub fn copy(&self, alloc: Global) -> Result<MDBFileInfo, StoreError>
        ensures copy { IfOk result (λ copy. copy ≡ self.now) }
        ensures memory { IsOkUnless result StoreError.OutOfMemory }
    {
        Ok(MDBFileInfo {
            metadata: self.metadata,
            segments: Items::from_vec(Vec::from_slice(alloc, self.segments.as_slice())?),
            verification: Items::from_vec(Vec::from_slice(alloc, self.verification.as_slice())?),
            metadata_ext: self.metadata_ext,
        })
    }

    /// The uncompressed bytes of all segments. The caller ensures that there are fewer than 2^32 segments, so
    /// that the sum does not overflow.
    pub fn segments_size(&self) -> u64
        requires { length self.now.segments < 2 ^ 32 }
        ensures size { result ≡ segment_bytes self.now.segments }
        ensures small { result ≤ 2 ^ 32 * length self.now.segments }
    {
        let mut total: u64 = 0;
        for segment in self.segments.as_slice() {
            total += u64::from(segment.unpacked_segment_bytes);
        }
        total
    }

    /// The uncompressed bytes of all segments. The caller ensures that the sum is below 2^64.
    pub fn file_size(&self) -> u64
        requires { segment_bytes self.now.segments < 2 ^ 64 }
        ensures { result ≡ segment_bytes self.now.segments }
    {
        self.segments
            .as_slice()
            .iter()
            .map(|segment| u64::from(segment.unpacked_segment_bytes))
            .sum()
    }

    /// The bytes that the record adds to a shard: its rows, and its item in the file lookup table.
    pub fn num_bytes(&self) -> u64
        requires { file_record_size self.now < 2 ^ 64 }
        ensures { result ≡ file_record_size self.now }
    {
        let ext = if self.metadata_ext.is_some() { 1 } else { 0 };
        let rows = 1 + self.segments.as_slice().len() + self.verification.as_slice().len() + ext;
        48 * rows as u64 + 12
    }
}

/// The header of a xorb record.
#[derive(Clone, Copy, PartialEq, Eq, Debug)]
pub struct XorbChunkSequenceHeader {
    /// The xorb hash.
    pub xorb_hash: MerkleHash,
    /// 0 in a well-formed record.
    pub xorb_flags: u32,
    /// The number of chunks.
    pub num_entries: u32,
    /// The uncompressed bytes of all chunks.
    pub num_bytes_in_xorb: u32,
    /// 0 in a well-formed record.
    pub num_bytes_on_disk: u32,
}

impl XorbChunkSequenceHeader {
    /// The header of a xorb record with `num_entries` chunks, which have `num_bytes_in_xorb` uncompressed
    /// bytes together.
    pub fn new(
        xorb_hash: MerkleHash,
        num_entries: u32,
        num_bytes_in_xorb: u32,
    ) -> XorbChunkSequenceHeader
        ensures { result ≡ record { xorb_hash = xorb_hash; xorb_flags = 0; num_entries = num_entries; num_bytes_in_xorb = num_bytes_in_xorb; num_bytes_on_disk = 0 } }
    {
        XorbChunkSequenceHeader {
            xorb_hash,
            xorb_flags: 0,
            num_entries,
            num_bytes_in_xorb,
            num_bytes_on_disk: 0,
        }
    }
}

impl Default for XorbChunkSequenceHeader {
    ghost is_default = { λ h. h ≡ record { xorb_hash = zero_hash; xorb_flags = 0; num_entries = 0; num_bytes_in_xorb = 0; num_bytes_on_disk = 0 } };

    fn default() -> XorbChunkSequenceHeader {
        XorbChunkSequenceHeader::new(MerkleHash::default(), 0, 0)
    }
}

/// A chunk of a xorb record.
#[derive(Clone, Copy, PartialEq, Eq, Debug)]
pub struct XorbChunkSequenceEntry {
    /// The chunk hash; in a keyed shard, the keyed chunk hash.
    pub chunk_hash: MerkleHash,
    /// The uncompressed bytes of the chunks before it in the xorb.
    pub chunk_byte_range_start: u32,
    /// The uncompressed length of the chunk, in bytes.
    pub unpacked_segment_bytes: u32,
}

impl XorbChunkSequenceEntry {
    /// A chunk of `unpacked_segment_bytes` uncompressed bytes, after `chunk_byte_range_start` uncompressed
    /// bytes of its xorb.
    pub fn new(
        chunk_hash: MerkleHash,
        unpacked_segment_bytes: u32,
        chunk_byte_range_start: u32,
    ) -> XorbChunkSequenceEntry
        ensures { result ≡ record { chunk_hash = chunk_hash; chunk_byte_range_start = chunk_byte_range_start; unpacked_segment_bytes = unpacked_segment_bytes } }
    {
        XorbChunkSequenceEntry {
            chunk_hash,
            chunk_byte_range_start,
            unpacked_segment_bytes,
        }
    }
}

impl Default for XorbChunkSequenceEntry {
    ghost is_default = { λ c. c ≡ record { chunk_hash = zero_hash; chunk_byte_range_start = 0; unpacked_segment_bytes = 0 } };

    fn default() -> XorbChunkSequenceEntry {
        XorbChunkSequenceEntry::new(MerkleHash::default(), 0, 0)
    }
}

/// A xorb record: the list of the xorb's chunks.
#[derive(Debug, Drop)]
pub struct MDBXorbInfo {
    /// The header.
    pub metadata: XorbChunkSequenceHeader,
    /// The chunks, in order.
    pub chunks: Items<XorbChunkSequenceEntry>,
}

impl MDBXorbInfo {
    /// A record without chunks, whose hash is zero. Allocates nothing.
    pub fn default(alloc: Global) -> MDBXorbInfo
        ensures { result ≡ record { metadata = record { xorb_hash = zero_hash; xorb_flags = 0; num_entries = 0; num_bytes_in_xorb = 0; num_bytes_on_disk = 0 }; chunks = [] } }
    {
        MDBXorbInfo {
            metadata: XorbChunkSequenceHeader::default(),
            chunks: Items::new(alloc),
        }
    }

    /// The xorb hash.
    pub fn hash(&self) -> MerkleHash
        ensures { result ≡ xorb_record_hash self.now }
    {
        self.metadata.xorb_hash
    }

    /// A copy. The only error is `StoreError::OutOfMemory`.
    pub fn copy(&self, alloc: Global) -> Result<MDBXorbInfo, StoreError>
        ensures copy { IfOk result (λ copy. copy ≡ self.now) }
        ensures memory { IsOkUnless result StoreError.OutOfMemory }
    {
        Ok(MDBXorbInfo {
            metadata: self.metadata,
            chunks: Items::from_vec(Vec::from_slice(alloc, self.chunks.as_slice())?),
        })
    }

    /// The uncompressed bytes of all chunks, as the header states them.
    pub fn stated_size(&self) -> u64
        ensures size { result ≡ self.now.metadata.num_bytes_in_xorb }
        ensures small { result < 2 ^ 32 }
    {
        u64::from(self.metadata.num_bytes_in_xorb)
    }

    /// The bytes that the record adds to a shard: its rows, its item in the xorb lookup table, and its
    /// chunks' items in the chunk lookup table.
    pub fn num_bytes(&self) -> u64
        requires { xorb_record_size self.now < 2 ^ 64 }
        ensures { result ≡ xorb_record_size self.now }
    {
        let chunks = self.chunks.as_slice().len() as u64;
        48 * (1 + chunks) + 12 + 16 * chunks
    }

    /// The hash of each chunk, with the uncompressed boundary offset at its end. The caller ensures that the
    /// chunks have fewer than 2^32 bytes together. The only error is `StoreError::OutOfMemory`.
    pub fn chunks_and_boundaries(&self, alloc: Global) -> Result<Vec<(MerkleHash, u32)>, StoreError>
        requires { chunk_bytes self.now.chunks < 2 ^ 32 }
        ensures boundaries { IfOk result (λ found. found.items ≡ boundaries_from 0 self.now.chunks) }
        ensures memory { IsOkUnless result StoreError.OutOfMemory }
    {
        let chunks = self.chunks.as_slice();
        let mut found = Vec::with_capacity(alloc, chunks.len())?;
        let mut end = 0;
        for chunk in chunks {
            end += chunk.unpacked_segment_bytes;
            found.push((chunk.chunk_hash, end))?;
        }
        Ok(found)
    }
}
