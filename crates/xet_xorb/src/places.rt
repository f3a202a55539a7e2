//! Offsets, lengths and hashes of ranges of chunks, from the lists of a footer.

ghost use Rattle.std.specs.Prelude.{◌≡◌, ◌+◌, ◌≤◌, Ok, Err, IsTrue, length, ◌↔◌, true};
ghost use Rattle.xet_xorb.specs.Object.{byte_offset, chunk_length, chunk_range_hash, complete, contents_length, end_of, between, is_complete, range_length, some_chunks};

use crate::object::XorbObject;
use xet_hash::{DataHash, MerkleHash, Reason, StoreError, range_hash_from_chunks};
use xet_xorb_footer::XorbObjectInfoV1;

impl XorbObject {
    /// The range hash of the chunks `start..end`, from the listed chunk hashes. Does not allocate.
    ///
    /// Fails with `MalformedData(Incomplete)` if the footer does not list all its chunks, and with
    /// `InvalidArguments` if the range is empty or passes the last chunk.
    pub fn generate_chunk_range_hash(&self, start: u32, end: u32) -> Result<DataHash, StoreError>
        ensures { result ≡ chunk_range_hash self.now.info start end }
    {
        check_range(&self.info, start, end)?;
        let hashes = self.info.chunk_hashes.as_slice();
        Ok(range_hash_from_chunks(&hashes[start as usize..end as usize]))
    }

    /// The offsets among the stored bytes, headers included, at which the chunks `start..end` start and end.
    /// They are those that the footer lists; their order is not checked. Does not allocate. Errors are those
    /// of `generate_chunk_range_hash`.
    pub fn get_byte_offset(&self, start: u32, end: u32) -> Result<(u32, u32), StoreError>
        ensures { result ≡ byte_offset self.now.info start end }
    {
        check_range(&self.info, start, end)?;
        let ends = self.info.chunk_boundary_offsets.as_slice();
        Ok((end_of(ends, start as usize), end_of(ends, end as usize)))
    }

    /// The offset among the stored bytes at which the last chunk ends. Does not allocate. Fails with
    /// `MalformedData(Incomplete)` if the footer does not list all its chunks.
    pub fn get_contents_length(&self) -> Result<u32, StoreError>
        ensures { result ≡ contents_length self.now.info }
    {
        check_complete(&self.info)?;
        let ends = self.info.chunk_boundary_offsets.as_slice();
        Ok(end_of(ends, self.info.num_chunks as usize))
    }

    /// The uncompressed length of a chunk, in bytes. Does not allocate.
    ///
    /// Fails with `MalformedData(Incomplete)`, with `InvalidArguments` if no uncompressed boundary offset is
    /// listed for the chunk, and with `MalformedData(Offsets)` if the offset before it is larger.
    pub fn uncompressed_chunk_length(&self, chunk_index: u32) -> Result<u32, StoreError>
        ensures { result ≡ chunk_length self.now.info chunk_index }
    {
        check_complete(&self.info)?;
        let ends = self.info.unpacked_chunk_offsets.as_slice();
        let before = chunk_index as usize;
        if before >= ends.len() {
            return Err(StoreError::InvalidArguments);
        }
        length_between(end_of(ends, before), end_of(ends, before + 1))
    }

    /// The uncompressed length of the chunks `start..end`, in bytes; 0 if `start` is `end`. Does not
    /// allocate.
    ///
    /// Fails with `MalformedData(Incomplete)`; with `InvalidArguments` if `end` is before `start` or passes
    /// the last chunk, `start` is not the index of a chunk, or too few uncompressed boundary offsets are
    /// listed; and with `MalformedData(Offsets)` if the offset at `end` is below the one at `start`.
    pub fn uncompressed_range_length(&self, start: u32, end: u32) -> Result<u32, StoreError>
        ensures { result ≡ range_length self.now.info start end }
    {
        check_complete(&self.info)?;
        let ends = self.info.unpacked_chunk_offsets.as_slice();
        let count = self.info.num_chunks;
        if start > end || end > count || start >= count {
            return Err(StoreError::InvalidArguments);
        }
        if start == end {
            return Ok(0);
        }
        if end as usize > ends.len() {
            return Err(StoreError::InvalidArguments);
        }
        length_between(end_of(ends, start as usize), end_of(ends, end as usize))
    }
}

/// Whether a footer lists all its chunks, at least one, and its hash is not zero.
fn is_complete(info: &XorbObjectInfoV1) -> bool
    ensures { result ≡ is_complete info.now }
{
    let count = info.num_chunks as usize;
    count > 0
        && info.chunk_boundary_offsets.as_slice().len() == count
        && info.chunk_hashes.as_slice().len() == count
        && (info.boundaries_version != 1 || info.unpacked_chunk_offsets.as_slice().len() == count)
        && info.xorb_hash != MerkleHash::default()
}

/// Fails with `MalformedData(Incomplete)` if the footer does not list all its chunks.
pub(crate) fn check_complete(info: &XorbObjectInfoV1) -> Result<(), StoreError>
    ensures { result ≡ complete info.now }
{
    if is_complete(info) {
        Ok(())
    } else {
        Err(StoreError::MalformedData(Reason::Incomplete))
    }
}

/// Fails with `MalformedData(Incomplete)` if the footer does not list all its chunks, and with
/// `InvalidArguments` if the range is empty or passes the last one.
fn check_range(info: &XorbObjectInfoV1, start: u32, end: u32) -> Result<(), StoreError>
    ensures { result ≡ some_chunks info.now start end }
{
    check_complete(info)?;
    if start < end && end <= info.num_chunks {
        Ok(())
    } else {
        Err(StoreError::InvalidArguments)
    }
}

/// The offset at which the first `count` chunks end.
fn end_of(ends: &[u32], count: usize) -> u32
    requires { count ≤ length ends.now }
    ensures { result ≡ end_of ends.now count }
{
    if count == 0 { 0 } else { ends[count - 1] }
}

/// The number of bytes between two offsets. Fails with `MalformedData(Offsets)` if `to` is below `from`.
fn length_between(from: u32, to: u32) -> Result<u32, StoreError>
    ensures { result ≡ between from to }
{
    if from <= to {
        Ok(to - from)
    } else {
        Err(StoreError::MalformedData(Reason::Offsets))
    }
}
