//! Validation of bytes as a xorb.

ghost use Rattle.std.specs.Prelude.{◌≡◌, ◌≤◌, ◌<◌, ◌+◌, ◌*◌, ◌^◌, ◌↔◌, ℕ, List, Ok, Some, true, IfErr, IfOk, IfSome, IsErrOf, IsNone, IsOkUnless, IsTrue, drop, length, take};
ghost use Rattle.std.specs.List.{AllByRecursion};
ghost use Rattle.xet_hash.specs.declared.error.Place.TheVariants.{Input};
ghost use Rattle.xet_hash.specs.declared.error.StoreError.TheVariants.{Io};
ghost use Rattle.xet_hash.specs.Merkle.{chunk_hash, leaf_of, total_len, xorb_hash};
ghost use Rattle.xet_xorb_footer.specs.Ends.{last_footer, footer_length};
ghost use Rattle.xet_codec.specs.Blocks.{HasBytes, IsPart, Sees};
ghost use Rattle.xet_xorb_footer.specs.FooterEncoding.{HasShortLists, max_chunks, footer_bytes_v0, footer_bytes_v1};
ghost use Rattle.xet_codec.specs.Stops.{StopsReading};
ghost use Rattle.xet_xorb.specs.internal.Checking.{AreChunks, HaveLeaves, IsEnding, IsStoredAt, footer_with_length, encoded_header};
ghost use Rattle.xet_xorb.specs.Footer.{Version, footer_info, footer_len};
ghost use Rattle.xet_xorb.specs.Object.{object_of};
ghost use Rattle.xet_xorb.specs.Validation.{IsFooterOf, IsValid, IsXorbOf};
ghost use Rattle.xet_io.specs.Frame.{ReadFrom};

use crate::footers::{new_footer, new_footer_v0};
use crate::object::XorbObject;
use std::alloc::Global;
use xet_codec::{Block, read_exact, reader_length};
use xet_hash::{MerkleHash, StoreError, compute_data_hash, xorb_hash};
use xet_io::{MemorySink, ReadAt};
use xet_xorb_footer::{XorbObjectInfoV0, XorbObjectInfoV1, footer_length};

/// Length of a chunk header, in bytes.
const HEADER_SIZE: u64 = 8;

/// Size of the field that holds a footer's length, in bytes.
const LENGTH_SIZE: u64 = 4;

/// Size of the spare bytes at the end of a footer.
const SPARE_SIZE: u64 = 16;

/// Length of a footer, for each version: without chunks, and for each chunk.
const EMPTY_V0: u64 = 60;

const EACH_V0: u64 = 36;

const EMPTY_V1: u64 = 92;

const EACH_V1: u64 = 40;

/// Maximum number of bytes that are compared at once.
const PIECE: usize = 4096;

impl XorbObject {
    /// Validates a reader's bytes as a xorb with this hash, whose chunks have at most `max_chunk` bytes each,
    /// which is below 2^23. Returns its footer with its length, or none if the bytes are anything else. The
    /// only errors are `Io(Input)` and `OutOfMemory`.
    ///
    /// Each chunk is hashed, and the footer that the chunks have is compared with the bytes: nothing that the
    /// footer says is believed. The bytes are read once, in blocks of 64 KiB, or of the longest chunk if that
    /// is longer. Only the length of the footer and its spare bytes are read twice.
    pub fn validate_xorb_object<R: ReadAt>(
        alloc: Global,
        reader: &mut R,
        hash: &MerkleHash,
        max_chunk: u32,
    ) -> Result<Option<XorbObject>, StoreError>
        requires max_chunk { max_chunk < 2 ^ 23 }
        ensures valid { R.tells reader.old ≡ true → IfOk result (λ found. IfSome found (λ object. (chunks : List (List ℕ)) × IsValid max_chunk hash.now (R.bytes reader.old) chunks object)) }
        ensures footer { IfOk result (λ found. IfSome found (IsFooterOf max_chunk hash.now)) }
        ensures read { R.tells reader.old ≡ true → IfOk result (λ found. IfSome found (λ object. last_footer (R.bytes reader.old) ≡ Ok (object.info, object.info_length))) }
        ensures none { R.tells reader.old ≡ true → IfOk result (λ found. IsNone found → (chunks : List (List ℕ)) → IsXorbOf max_chunk hash.now (R.bytes reader.old) chunks → ⊥) }
        ensures errors { IfErr result StopsReading }
        ensures frame { ReadFrom R.bytes R.tells R.faults R.lent reader.old reader.new (IsErrOf result (Io Input)) }
    {
        let Some((start, told)) = footer_place(reader)? else {
            return Ok(None);
        };
        let len = start + told as u64 + LENGTH_SIZE;
        let mut block = Block::new(alloc);
        let Some(leaves) = stored_leaves(alloc, reader, &mut block, start, len, max_chunk)? else {
            return Ok(None);
        };
        if !have_hash(alloc, &leaves, hash)? {
            return Ok(None);
        }
        checked_object(alloc, reader, &mut block, start, told, hash, &leaves)
    }
}

/// Offset and length of the footer, by the length in the last four bytes. None if the bytes are too few for
/// it, if it is shorter than any footer, or if there are 2^32 bytes or more. The only error is `Io(Input)`.
fn footer_place<R: ReadAt>(reader: &mut R) -> Result<Option<(u64, u32)>, StoreError>
    ensures bound { IfOk result (λ found. IfSome found (λ place. place.0 + place.1 + 4 < 2 ^ 32)) }
    ensures some { IfOk result (λ found. IfSome found (λ place. 60 ≤ place.1)) }
    ensures whole { R.tells reader.old ≡ true → IfOk result (λ found. IfSome found (λ place. place.0 + place.1 + 4 ≡ length (R.bytes reader.old))) }
    ensures told { R.tells reader.old ≡ true → IfOk result (λ found. IfSome found (λ place. footer_length (R.bytes reader.old) ≡ Ok place.1)) }
    ensures none { R.tells reader.old ≡ true → IfOk result (λ found. IsNone found → length (R.bytes reader.old) < 2 ^ 32 → (n : ℕ) → 60 ≤ n → n + 4 ≤ length (R.bytes reader.old) → footer_length (R.bytes reader.old) ≡ Ok n → ⊥) }
    ensures errors { IfErr result StopsReading }
    ensures frame { ReadFrom R.bytes R.tells R.faults R.lent reader.old reader.new (IsErrOf result (Io Input)) }
{
    let length = reader_length(reader)?;
    if length > u32::MAX as u64 || length < EMPTY_V0 + LENGTH_SIZE {
        return Ok(None);
    }
    let told = match footer_length(reader) {
        Ok(told) => told,
        Err(StoreError::UnexpectedEof) => return Ok(None),
        Err(error) => return Err(error),
    };
    let size = told as u64 + LENGTH_SIZE;
    if (told as u64) < EMPTY_V0 || length < size {
        return Ok(None);
    }
    Ok(Some((length - size, told)))
}

/// The (hash, length) pairs of the chunks that are stored in the first `end` of `len` bytes, each of at most
/// `max_chunk` bytes. None if these bytes are anything but stored chunks. Errors: `Io(Input)` and
/// `OutOfMemory`.
fn stored_leaves<R: ReadAt>(
    alloc: Global,
    reader: &mut R,
    block: &mut Block,
    end: u64,
    len: u64,
    max_chunk: u32,
) -> Result<Option<Vec<(MerkleHash, u64)>>, StoreError>
    requires max_chunk { max_chunk < 2 ^ 23 }
    requires end { end ≤ len }
    requires len { len < 2 ^ 32 }
    ensures size { IfOk result (λ found. IfSome found (λ leaves. total_len leaves.items + 8 * length leaves.items ≡ end)) }
    ensures fit { IfOk result (λ found. IfSome found (λ leaves. AllByRecursion (λ m. m.1 ≤ max_chunk) leaves.items)) }
    ensures found { (bytes : List ℕ) → Sees (R.tells reader.old) (R.bytes reader.old) bytes len block.old → IfOk result (λ found. IfSome found (λ leaves. HaveLeaves max_chunk (take end bytes) leaves.items)) }
    ensures none { (bytes : List ℕ) → Sees (R.tells reader.old) (R.bytes reader.old) bytes len block.old → IfOk result (λ found. IsNone found → (chunks : List (List ℕ)) → AreChunks max_chunk (take end bytes) chunks → ⊥) }
    ensures part { (bytes : List ℕ) → Sees (R.tells reader.old) (R.bytes reader.old) bytes len block.old → IfOk result (λ found. IfSome found (λ _. IsPart block.new bytes)) }
    ensures errors { IfErr result StopsReading }
    ensures frame { ReadFrom R.bytes R.tells R.faults R.lent reader.old reader.new (IsErrOf result (Io Input)) }
{
    let mut leaves = Vec::new(alloc);
    let mut at: u64 = 0;
    'chunks: while at < end {
        let Some(leaf) = leaf_at(reader, block, at, end, len, max_chunk)? else {
            return Ok(None);
        };
        at += HEADER_SIZE + leaf.1;
        leaves.push(leaf)?;
    }
    Ok(Some(leaves))
}

/// The (hash, length) pair of the chunk that is stored at offset `at` of `len` bytes. None if there is no
/// chunk of at most `max_chunk` bytes that ends at offset `end` or before. Errors: `Io(Input)` and
/// `OutOfMemory`.
fn leaf_at<R: ReadAt>(
    reader: &mut R,
    block: &mut Block,
    at: u64,
    end: u64,
    len: u64,
    max_chunk: u32,
) -> Result<Option<(MerkleHash, u64)>, StoreError>
    requires max_chunk { max_chunk < 2 ^ 23 }
    requires place { at ≤ end }
    requires end { end ≤ len }
    requires len { len < 2 ^ 32 }
    ensures within { IfOk result (λ found. IfSome found (λ leaf. at + (8 + leaf.1) ≤ end)) }
    ensures fits { IfOk result (λ found. IfSome found (λ leaf. leaf.1 ≤ max_chunk)) }
    ensures found { (bytes : List ℕ) → Sees (R.tells reader.old) (R.bytes reader.old) bytes len block.old → IfOk result (λ found. IfSome found (λ leaf. (chunk : List ℕ) × IsStoredAt max_chunk bytes at end chunk × (leaf ≡ leaf_of chunk))) }
    ensures none { (bytes : List ℕ) → Sees (R.tells reader.old) (R.bytes reader.old) bytes len block.old → IfOk result (λ found. IsNone found → (chunk : List ℕ) → IsStoredAt max_chunk bytes at end chunk → ⊥) }
    ensures part { (bytes : List ℕ) → Sees (R.tells reader.old) (R.bytes reader.old) bytes len block.old → IfOk result (λ found. IfSome found (λ _. IsPart block.new bytes)) }
    ensures errors { IfErr result StopsReading }
    ensures frame { ReadFrom R.bytes R.tells R.faults R.lent reader.old reader.new (IsErrOf result (Io Input)) }
{
    let room = end - at;
    if room < HEADER_SIZE {
        return Ok(None);
    }
    let Some(header) = header_at(reader, block, at, len)? else {
        return Ok(None);
    };
    let Some(size) = chunk_size(header, max_chunk) else {
        return Ok(None);
    };
    if room - HEADER_SIZE < size as u64 {
        return Ok(None);
    }
    let Some(digest) = digest_at(reader, block, at + HEADER_SIZE, len, size as usize)? else {
        return Ok(None);
    };
    Ok(Some((digest, size as u64)))
}

/// The eight bytes at offset `at` of `len` bytes, or none if there are fewer. Errors: `Io(Input)` and
/// `OutOfMemory`.
fn header_at<R: ReadAt>(
    reader: &mut R,
    block: &mut Block,
    at: u64,
    len: u64,
) -> Result<Option<[u8; 8]>, StoreError>
    requires { at ≤ len }
    ensures read { (bytes : List ℕ) → Sees (R.tells reader.old) (R.bytes reader.old) bytes len block.old → at + 8 ≤ len → IfOk result (λ header. header ≡ Some (take 8 (drop at bytes))) }
    ensures part { (bytes : List ℕ) → Sees (R.tells reader.old) (R.bytes reader.old) bytes len block.old → IfOk result (λ header. IfSome header (λ _. IsPart block.new bytes)) }
    ensures errors { IfErr result StopsReading }
    ensures frame { ReadFrom R.bytes R.tells R.faults R.lent reader.old reader.new (IsErrOf result (Io Input)) }
{
    if !load(reader, block, at, len, 8)? {
        return Ok(None);
    }
    let mut header = [0; 8];
    header.copy_from_slice(block.part(at, 8));
    Ok(Some(header))
}

/// The length of the stored chunk with this header, without the header, or none if it is not the header that
/// a chunk of at most `max_chunk` bytes has.
fn chunk_size(header: [u8; 8], max_chunk: u32) -> Option<u32>
    requires { max_chunk < 2 ^ 23 }
    ensures fits { IfSome result (λ n. n ≤ max_chunk) }
    ensures found { IfSome result (λ n. header ≡ encoded_header n) }
    ensures none { IsNone result → (n : ℕ) → n ≤ max_chunk → header ≡ encoded_header n → ⊥ }
{
    let [version, a, b, c, scheme, d, e, f] = header;
    let stored = u32::from_le_bytes([a, b, c, 0]);
    let plain = u32::from_le_bytes([d, e, f, 0]);
    if version != 0 || scheme != 0 || stored != plain || plain > max_chunk {
        return None;
    }
    Some(plain)
}

/// The chunk hash of the `size` bytes at offset `at` of `len` bytes, or none if there are fewer. Errors:
/// `Io(Input)` and `OutOfMemory`.
fn digest_at<R: ReadAt>(
    reader: &mut R,
    block: &mut Block,
    at: u64,
    len: u64,
    size: usize,
) -> Result<Option<MerkleHash>, StoreError>
    requires { at ≤ len }
    ensures read { (bytes : List ℕ) → Sees (R.tells reader.old) (R.bytes reader.old) bytes len block.old → at + size ≤ len → IfOk result (λ digest. digest ≡ Some (chunk_hash (take size (drop at bytes)))) }
    ensures part { (bytes : List ℕ) → Sees (R.tells reader.old) (R.bytes reader.old) bytes len block.old → IfOk result (λ digest. IfSome digest (λ _. IsPart block.new bytes)) }
    ensures errors { IfErr result StopsReading }
    ensures frame { ReadFrom R.bytes R.tells R.faults R.lent reader.old reader.new (IsErrOf result (Io Input)) }
{
    if !load(reader, block, at, len, size)? {
        return Ok(None);
    }
    let body = block.part(at, size);
    Ok(Some(compute_data_hash(body)))
}

/// Loads at least `count` bytes from offset `at` of `len` bytes into the block. False if there are fewer.
/// Errors: `Io(Input)` and `OutOfMemory`.
fn load<R: ReadAt>(
    reader: &mut R,
    block: &mut Block,
    at: u64,
    len: u64,
    count: usize,
) -> Result<bool, StoreError>
    requires { at ≤ len }
    ensures there { IfOk result (λ there. IsTrue there → HasBytes block.new at count) }
    ensures part { (bytes : List ℕ) → Sees (R.tells reader.old) (R.bytes reader.old) bytes len block.old → IfOk result (λ there. IsTrue there → IsPart block.new bytes) }
    ensures whole { (bytes : List ℕ) → Sees (R.tells reader.old) (R.bytes reader.old) bytes len block.old → at + count ≤ len → IfOk result (λ there. there ≡ true) }
    ensures errors { IfErr result StopsReading }
    ensures frame { ReadFrom R.bytes R.tells R.faults R.lent reader.old reader.new (IsErrOf result (Io Input)) }
{
    match block.load(reader, at, len, count) {
        Ok(()) => Ok(true),
        Err(StoreError::UnexpectedEof) => Ok(false),
        Err(error) => Err(error),
    }
}

/// Whether there is at least one pair, and the xorb hash of the pairs is `hash`. The only error is
/// `OutOfMemory`.
fn have_hash(
    alloc: Global,
    leaves: &[(MerkleHash, u64)],
    hash: &MerkleHash,
) -> Result<bool, StoreError>
    requires { total_len leaves.now < 2 ^ 64 }
    ensures same { IfOk result (λ same. IsTrue same ↔ ((0 < length leaves.now) × (xorb_hash leaves.now ≡ hash.now))) }
    ensures memory { IsOkUnless result StoreError.OutOfMemory }
{
    let found = xorb_hash(alloc, leaves)?;
    Ok(!leaves.is_empty() && found == *hash)
}

/// The footer of `told` bytes at offset `start`, with its length. None unless it is the footer of a xorb with
/// this hash and these pairs, followed by its length. Errors: `Io(Input)` and `OutOfMemory`.
fn checked_object<R: ReadAt>(
    alloc: Global,
    reader: &mut R,
    block: &mut Block,
    start: u64,
    told: u32,
    hash: &MerkleHash,
    leaves: &[(MerkleHash, u64)],
) -> Result<Option<XorbObject>, StoreError>
    requires some { 60 ≤ told }
    requires bound { start + told + 4 < 2 ^ 32 }
    requires size { total_len leaves.now + 8 * length leaves.now ≡ start }
    ensures footer { IfOk result (λ found. IfSome found (λ object. (version : Version) × (spare : List ℕ) × (length spare ≡ 16) × (object ≡ object_of version hash.now leaves.now spare))) }
    ensures found { (bytes : List ℕ) → Sees (R.tells reader.old) (R.bytes reader.old) bytes (start + told + 4) block.old → AllByRecursion (λ m. length m.0 ≡ 32) leaves.now → length hash.now ≡ 32 → IfOk result (λ found. IfSome found (IsEnding hash.now leaves.now (drop start bytes))) }
    ensures none { (bytes : List ℕ) → Sees (R.tells reader.old) (R.bytes reader.old) bytes (start + told + 4) block.old → AllByRecursion (λ m. length m.0 ≡ 32) leaves.now → length hash.now ≡ 32 → IfOk result (λ found. IsNone found → (object : _) → IsEnding hash.now leaves.now (drop start bytes) object → ⊥) }
    ensures errors { IfErr result StopsReading }
    ensures frame { ReadFrom R.bytes R.tells R.faults R.lent reader.old reader.new (IsErrOf result (Io Input)) }
{
    let mut spare = [0; 16];
    if !fill(reader, start + told as u64 - SPARE_SIZE, &mut spare)? {
        return Ok(None);
    }
    let Some((info, encoding)) = ending_of(alloc, hash, leaves, told, spare)? else {
        return Ok(None);
    };
    let len = start + told as u64 + LENGTH_SIZE;
    if !stands_at(reader, block, start, len, &encoding)? {
        return Ok(None);
    }
    Ok(Some(XorbObject {
        info,
        info_length: told,
    }))
}

/// The footer of `told` bytes that a xorb with this hash, these pairs and these spare bytes has, and the
/// encoding of it and of its length. None if no version has this length. The only error is `OutOfMemory`.
fn ending_of(
    alloc: Global,
    hash: &MerkleHash,
    leaves: &[(MerkleHash, u64)],
    told: u32,
    spare: [u8; 16],
) -> Result<Option<(XorbObjectInfoV1, Vec<u8>)>, StoreError>
    requires { total_len leaves.now + 8 * length leaves.now + told + 4 < 2 ^ 32 }
    ensures found { IfOk result (λ found. IfSome found (λ made. (version : Version) × (told ≡ footer_len version (length leaves.now)) × (made.0 ≡ footer_info version hash.now leaves.now spare) × (made.1.items ≡ footer_with_length version hash.now leaves.now spare))) }
    ensures none { IfOk result (λ found. IsNone found → (version : Version) → told ≡ footer_len version (length leaves.now) → ⊥) }
    ensures memory { IsOkUnless result StoreError.OutOfMemory }
{
    let count = leaves.len() as u64;
    if told as u64 == EMPTY_V1 + EACH_V1 * count {
        let info = new_footer(alloc, hash, leaves, spare)?;
        let mut encoding = encoding_of(alloc, &info)?;
        encoding.extend_from_slice(&told.to_le_bytes())?;
        return Ok(Some((info, encoding)));
    }
    if told as u64 == EMPTY_V0 + EACH_V0 * count {
        let info = new_footer_v0(alloc, hash, leaves, spare)?;
        let mut encoding = encoding_of_v0(alloc, &info)?;
        encoding.extend_from_slice(&told.to_le_bytes())?;
        return Ok(Some((XorbObjectInfoV1::from_v0(info), encoding)));
    }
    Ok(None)
}

/// The encoding of a footer of version 1. Every error is returned as `OutOfMemory`: a sink in memory has no
/// other, and the caller passes complete lists.
fn encoding_of(alloc: Global, info: &XorbObjectInfoV1) -> Result<Vec<u8>, StoreError>
    requires { HasShortLists info.now }
    ensures encoding { IfOk result (λ encoding. encoding.items ≡ footer_bytes_v1 info.now) }
    ensures memory { IsOkUnless result StoreError.OutOfMemory }
{
    let mut sink = MemorySink::new(alloc);
    info.serialize(&mut sink).or(Err(StoreError::OutOfMemory))?;
    Ok(sink.into_bytes())
}

/// The encoding of a footer of version 0. Every error is returned as `OutOfMemory`: a sink in memory has no
/// other.
fn encoding_of_v0(alloc: Global, info: &XorbObjectInfoV0) -> Result<Vec<u8>, StoreError>
    requires hashes { length info.now.chunk_hashes ≤ max_chunks }
    requires stored { length info.now.chunk_boundary_offsets ≤ max_chunks }
    ensures encoding { IfOk result (λ encoding. encoding.items ≡ footer_bytes_v0 info.now) }
    ensures memory { IsOkUnless result StoreError.OutOfMemory }
{
    let mut sink = MemorySink::new(alloc);
    info.serialize(&mut sink).or(Err(StoreError::OutOfMemory))?;
    Ok(sink.into_bytes())
}

/// Whether the bytes `encoding` are at offset `at` of `len` bytes. Errors: `Io(Input)` and `OutOfMemory`.
fn stands_at<R: ReadAt>(
    reader: &mut R,
    block: &mut Block,
    at: u64,
    len: u64,
    encoding: &[u8],
) -> Result<bool, StoreError>
    requires { at ≤ len }
    ensures found { (bytes : List ℕ) → Sees (R.tells reader.old) (R.bytes reader.old) bytes len block.old → IfOk result (λ same. IsTrue same ↔ (encoding.now ≡ take (length encoding.now) (drop at bytes))) }
    ensures errors { IfErr result StopsReading }
    ensures frame { ReadFrom R.bytes R.tells R.faults R.lent reader.old reader.new (IsErrOf result (Io Input)) }
{
    if len - at < encoding.len() as u64 {
        return Ok(false);
    }
    let mut done = 0;
    'pieces: while done < encoding.len() {
        let size = PIECE.min(encoding.len() - done);
        let piece = &encoding[done..done + size];
        if !piece_stands_at(reader, block, at + done as u64, len, piece)? {
            return Ok(false);
        }
        done += size;
    }
    Ok(true)
}

/// Whether the bytes `piece` are at offset `at` of `len` bytes. Errors: `Io(Input)` and `OutOfMemory`.
fn piece_stands_at<R: ReadAt>(
    reader: &mut R,
    block: &mut Block,
    at: u64,
    len: u64,
    piece: &[u8],
) -> Result<bool, StoreError>
    requires { at + length piece.now ≤ len }
    ensures found { (bytes : List ℕ) → Sees (R.tells reader.old) (R.bytes reader.old) bytes len block.old → IfOk result (λ same. IsTrue same ↔ (piece.now ≡ take (length piece.now) (drop at bytes))) }
    ensures part { (bytes : List ℕ) → Sees (R.tells reader.old) (R.bytes reader.old) bytes len block.old → IfOk result (λ same. IsTrue same → IsPart block.new bytes) }
    ensures errors { IfErr result StopsReading }
    ensures frame { ReadFrom R.bytes R.tells R.faults R.lent reader.old reader.new (IsErrOf result (Io Input)) }
{
    let there = load(reader, block, at, len, piece.len())?;
    Ok(there && piece == block.part(at, piece.len()))
}

/// Fills `buf` with the bytes from offset `at` on. False if there are fewer. The only error is `Io(Input)`.
fn fill<R: ReadAt>(reader: &mut R, at: u64, buf: &mut [u8]) -> Result<bool, StoreError>
    requires { at + length buf.old < 2 ^ 64 }
    ensures whole { R.tells reader.old ≡ true → at + length buf.old ≤ length (R.bytes reader.old) → IfOk result (λ whole. whole ≡ true) }
    ensures read { R.tells reader.old ≡ true → at + length buf.old ≤ length (R.bytes reader.old) → IfOk result (λ _. buf.new ≡ take (length buf.old) (drop at (R.bytes reader.old))) }
    ensures len { length buf.new ≡ length buf.old }
    ensures errors { IfErr result (λ e. e ≡ Io Input) }
    ensures frame { ReadFrom R.bytes R.tells R.faults R.lent reader.old reader.new (IsErrOf result (Io Input)) }
{
    match read_exact(reader, at, buf) {
        Ok(()) => Ok(true),
        Err(StoreError::UnexpectedEof) => Ok(false),
        Err(error) => Err(error),
    }
}
