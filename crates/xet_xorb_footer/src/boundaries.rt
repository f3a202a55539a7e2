//! The boundary section of the footer at the end of a xorb, read alone.

ghost use Rattle.std.specs.Prelude.{◌≡◌, ◌≤◌, ◌+◌, ◌-◌, ◌*◌, ◌⊎◌, ◌++◌, List, ℕ, Ok, Err, true, IfErr, IfOk, IsErrOf, OnOk, drop, length};
ghost use Rattle.xet_hash.specs.declared.error.Place.TheVariants.{Input};
ghost use Rattle.xet_hash.specs.declared.error.StoreError.TheVariants.{Io, OutOfMemory};
ghost use Rattle.xet_xorb_footer.specs.Ends.{boundaries, last_boundaries, number_before};
ghost use Rattle.xet_codec.specs.Blocks.{IsPart, RefusedBy, Sees, Tells};
ghost use Rattle.xet_xorb_footer.specs.internal.Places.{checked_at, head_at, lists_at, tail_at};
ghost use Rattle.xet_codec.specs.Parsing.{number_at, times};
ghost use Rattle.xet_xorb_footer.specs.Reading.{number_is};
ghost use Rattle.xet_xorb_footer.specs.Errors.{IsFooterError, is_footer_check};
ghost use Rattle.xet_xorb_footer.specs.FooterEncoding.{max_chunks};
ghost use Rattle.xet_io.specs.Frame.{ReadFrom};

use crate::info::{BOUNDARIES_MAGIC, XorbObjectInfoV1};
use crate::lists::{number_of, push_numbers};
use crate::machine::MAX_CHUNKS;
use std::alloc::Global;
use xet_base::Items;
use xet_codec::{Block, read_exact, reader_length};
use xet_hash::{Reason, StoreError};
use xet_io::ReadAt;

impl XorbObjectInfoV1 {
    /// Reads the boundary section of the footer before the last four bytes, and what follows it in the
    /// footer. Returns them as a footer without hashes (the xorb hash is zero, the list of chunk hashes
    /// empty), and their number of bytes.
    ///
    /// The number that starts 24 bytes before the end gives the section's offset. Nothing else before the
    /// section is read. The bytes are read in blocks of 64 KiB, or in one block if they are fewer.
    ///
    /// Errors: `UnexpectedEof` if the section would start before the first byte, the first check that fails,
    /// `Io(Input)` and `OutOfMemory`.
    pub fn deserialize_only_boundaries_section<R: ReadAt>(
        alloc: Global,
        reader: &mut R,
    ) -> Result<(XorbObjectInfoV1, u32), StoreError>
        ensures read { R.tells reader.old ≡ true → IfOk result (λ x. last_boundaries (R.bytes reader.old) ≡ Ok (x.0, drop (length (R.bytes reader.old) - (number_before 24 (R.bytes reader.old) + 4) + x.1) (R.bytes reader.old))) }
        ensures within { R.tells reader.old ≡ true → IfOk result (λ x. length (R.bytes reader.old) - (number_before 24 (R.bytes reader.old) + 4) + x.1 ≤ length (R.bytes reader.old)) }
        ensures count { IfOk result (λ x. x.1 ≡ 40 + 8 * x.0.num_chunks) }
        ensures refused { R.tells reader.old ≡ true → IfErr result (λ e. (last_boundaries (R.bytes reader.old) ≡ Err e) ⊎ (e ≡ Io Input) ⊎ (e ≡ OutOfMemory)) }
        ensures kinds { IfErr result IsFooterError }
        ensures frame { ReadFrom R.bytes R.tells R.faults R.lent reader.old reader.new (IsErrOf result (Io Input)) }
    {
        let end = reader_length(reader)?;
        let at = boundaries_start(reader, end)?;
        let info = read_boundaries(alloc, reader, at, end)?;
        let count = 40 + 8 * info.num_chunks;
        Ok((info, count))
    }
}

/// Reads the number at offset `at`. Here and below, `end` is the length of the reader's bytes.
fn read_number<R: ReadAt>(
    reader: &mut R,
    block: &mut Block,
    at: u64,
    end: u64,
) -> Result<u32, StoreError>
    requires { at ≤ end }
    ensures read { (bytes : List ℕ) → Sees (R.tells reader.old) (R.bytes reader.old) bytes end block.old → IfOk result (λ n. number_at (drop at bytes) ≡ Ok (n, drop (at + 4) bytes)) }
    ensures part { (bytes : List ℕ) → Sees (R.tells reader.old) (R.bytes reader.old) bytes end block.old → OnOk result (IsPart block.new bytes) }
    ensures within { OnOk result (at + 4 ≤ end) }
    ensures refused { (bytes : List ℕ) → Sees (R.tells reader.old) (R.bytes reader.old) bytes end block.old → IfErr result (RefusedBy (number_at (drop at bytes))) }
    ensures kinds { IfErr result IsFooterError }
    ensures frame { ReadFrom R.bytes R.tells R.faults R.lent reader.old reader.new (IsErrOf result (Io Input)) }
{
    block.load(reader, at, end, 4)?;
    Ok(number_of(block.part(at, 4)))
}

/// Checks that the number at offset `at` is `wanted`.
fn expect_number<R: ReadAt>(
    reader: &mut R,
    block: &mut Block,
    at: u64,
    end: u64,
    wanted: u32,
    reason: Reason,
) -> Result<(), StoreError>
    requires within { at ≤ end }
    requires check { is_footer_check reason ≡ true }
    ensures read { (bytes : List ℕ) → Sees (R.tells reader.old) (R.bytes reader.old) bytes end block.old → OnOk result (number_is wanted reason (drop at bytes) ≡ Ok (tt, drop (at + 4) bytes)) }
    ensures part { (bytes : List ℕ) → Sees (R.tells reader.old) (R.bytes reader.old) bytes end block.old → OnOk result (IsPart block.new bytes) }
    ensures within { OnOk result (at + 4 ≤ end) }
    ensures refused { (bytes : List ℕ) → Sees (R.tells reader.old) (R.bytes reader.old) bytes end block.old → IfErr result (RefusedBy (number_is wanted reason (drop at bytes))) }
    ensures kinds { IfErr result IsFooterError }
    ensures frame { ReadFrom R.bytes R.tells R.faults R.lent reader.old reader.new (IsErrOf result (Io Input)) }
{
    if read_number(reader, block, at, end)? != wanted {
        return Err(StoreError::MalformedData(reason));
    }
    Ok(())
}

/// Checks that the bytes at offset `at` are `wanted`, at most seven.
fn expect_bytes<R: ReadAt>(
    reader: &mut R,
    block: &mut Block,
    at: u64,
    end: u64,
    wanted: &[u8],
    reason: Reason,
) -> Result<(), StoreError>
    requires within { at ≤ end }
    requires few { length wanted.now ≤ 7 }
    requires check { is_footer_check reason ≡ true }
    ensures read { (bytes : List ℕ) → Sees (R.tells reader.old) (R.bytes reader.old) bytes end block.old → OnOk result (checked_at (length wanted.now) wanted.now reason (drop at bytes) ≡ Ok (tt, drop (at + length wanted.now) bytes)) }
    ensures part { (bytes : List ℕ) → Sees (R.tells reader.old) (R.bytes reader.old) bytes end block.old → OnOk result (IsPart block.new bytes) }
    ensures within { OnOk result (at + length wanted.now ≤ end) }
    ensures refused { (bytes : List ℕ) → Sees (R.tells reader.old) (R.bytes reader.old) bytes end block.old → IfErr result (RefusedBy (checked_at (length wanted.now) wanted.now reason (drop at bytes))) }
    ensures kinds { IfErr result IsFooterError }
    ensures frame { ReadFrom R.bytes R.tells R.faults R.lent reader.old reader.new (IsErrOf result (Io Input)) }
{
    block.load(reader, at, end, wanted.len())?;
    if block.part(at, wanted.len()) != wanted {
        return Err(StoreError::MalformedData(reason));
    }
    Ok(())
}

/// Maximum number of boundary offsets taken from a block at once.
const BLOCK: usize = 64;

/// Reads `count` numbers from offset `at` on. Checks first that their bytes are there, so that a wrong count
/// reserves no more memory than there are bytes.
fn read_numbers<R: ReadAt>(
    alloc: Global,
    reader: &mut R,
    block: &mut Block,
    at: u64,
    end: u64,
    count: u32,
) -> Result<Vec<u32>, StoreError>
    requires { at ≤ end }
    ensures read { (bytes : List ℕ) → Sees (R.tells reader.old) (R.bytes reader.old) bytes end block.old → IfOk result (λ v. times number_at count (drop at bytes) ≡ Ok (v.items, drop (at + 4 * count) bytes)) }
    ensures part { (bytes : List ℕ) → Sees (R.tells reader.old) (R.bytes reader.old) bytes end block.old → OnOk result (IsPart block.new bytes) }
    ensures within { OnOk result (at + 4 * count ≤ end) }
    ensures refused { (bytes : List ℕ) → Sees (R.tells reader.old) (R.bytes reader.old) bytes end block.old → IfErr result (RefusedBy (times number_at count (drop at bytes))) }
    ensures kinds { IfErr result IsFooterError }
    ensures frame { ReadFrom R.bytes R.tells R.faults R.lent reader.old reader.new (IsErrOf result (Io Input)) }
{
    if end - at < 4 * count as u64 {
        return Err(StoreError::UnexpectedEof);
    }
    let mut list = Vec::with_capacity(alloc, count as usize)?;
    let mut to = at;
    'numbers: while list.len() < count as usize {
        let wanted = BLOCK.min(count as usize - list.len());
        block.load(reader, to, end, 4 * wanted)?;
        push_numbers(&mut list, block.part(to, 4 * wanted), wanted)?;
        to += 4 * wanted as u64;
    }
    Ok(list)
}

/// Reads the number of chunks, after it has checked the section's magic and version.
fn read_head<R: ReadAt>(
    reader: &mut R,
    block: &mut Block,
    at: u64,
    end: u64,
) -> Result<u32, StoreError>
    requires { at ≤ end }
    ensures read { (bytes : List ℕ) → Sees (R.tells reader.old) (R.bytes reader.old) bytes end block.old → IfOk result (λ n. head_at (drop at bytes) ≡ Ok (n, drop (at + 12) bytes)) }
    ensures part { (bytes : List ℕ) → Sees (R.tells reader.old) (R.bytes reader.old) bytes end block.old → OnOk result (IsPart block.new bytes) }
    ensures within { OnOk result (at + 12 ≤ end) }
    ensures few { IfOk result (λ n. n ≤ max_chunks) }
    ensures refused { (bytes : List ℕ) → Sees (R.tells reader.old) (R.bytes reader.old) bytes end block.old → IfErr result (RefusedBy (head_at (drop at bytes))) }
    ensures kinds { IfErr result IsFooterError }
    ensures frame { ReadFrom R.bytes R.tells R.faults R.lent reader.old reader.new (IsErrOf result (Io Input)) }
{
    expect_bytes(
        reader,
        block,
        at,
        end,
        &BOUNDARIES_MAGIC,
        Reason::BoundariesIdent,
    )?;
    expect_bytes(reader, block, at + 7, end, &[1], Reason::BoundariesVersion)?;
    let count = read_number(reader, block, at + 8, end)?;
    if count > MAX_CHUNKS {
        return Err(StoreError::MalformedData(Reason::ChunkCount));
    }
    Ok(count)
}

/// Reads the boundary offsets and the uncompressed boundary offsets of `count` chunks.
fn read_lists<R: ReadAt>(
    alloc: Global,
    reader: &mut R,
    block: &mut Block,
    at: u64,
    end: u64,
    count: u32,
) -> Result<(Vec<u32>, Vec<u32>), StoreError>
    requires { at ≤ end }
    ensures read { (bytes : List ℕ) → Sees (R.tells reader.old) (R.bytes reader.old) bytes end block.old → IfOk result (λ v. lists_at count (drop at bytes) ≡ Ok ((v.0.items, v.1.items), drop (at + 8 * count) bytes)) }
    ensures part { (bytes : List ℕ) → Sees (R.tells reader.old) (R.bytes reader.old) bytes end block.old → OnOk result (IsPart block.new bytes) }
    ensures within { OnOk result (at + 8 * count ≤ end) }
    ensures refused { (bytes : List ℕ) → Sees (R.tells reader.old) (R.bytes reader.old) bytes end block.old → IfErr result (RefusedBy (lists_at count (drop at bytes))) }
    ensures kinds { IfErr result IsFooterError }
    ensures frame { ReadFrom R.bytes R.tells R.faults R.lent reader.old reader.new (IsErrOf result (Io Input)) }
{
    let ends = read_numbers(alloc, reader, block, at, end, count)?;
    let plain = read_numbers(alloc, reader, block, at + 4 * count as u64, end, count)?;
    Ok((ends, plain))
}

/// Reads what follows the section: returns the offset of the hash section from the footer's end, and the
/// spare bytes.
fn read_tail<R: ReadAt>(
    reader: &mut R,
    block: &mut Block,
    at: u64,
    end: u64,
    count: u32,
) -> Result<(u32, [u8; 16]), StoreError>
    requires within { at ≤ end }
    requires few { count ≤ max_chunks }
    ensures read { (bytes : List ℕ) → Sees (R.tells reader.old) (R.bytes reader.old) bytes end block.old → IfOk result (λ x. tail_at count (drop at bytes) ≡ Ok ((x.0, x.1), drop (at + 28) bytes)) }
    ensures part { (bytes : List ℕ) → Sees (R.tells reader.old) (R.bytes reader.old) bytes end block.old → OnOk result (IsPart block.new bytes) }
    ensures within { OnOk result (at + 28 ≤ end) }
    ensures refused { (bytes : List ℕ) → Sees (R.tells reader.old) (R.bytes reader.old) bytes end block.old → IfErr result (RefusedBy (tail_at count (drop at bytes))) }
    ensures kinds { IfErr result IsFooterError }
    ensures frame { ReadFrom R.bytes R.tells R.faults R.lent reader.old reader.new (IsErrOf result (Io Input)) }
{
    expect_number(reader, block, at, end, count, Reason::CountMismatch)?;
    let hashes = read_number(reader, block, at + 4, end)?;
    expect_number(
        reader,
        block,
        at + 8,
        end,
        40 + 8 * count,
        Reason::BoundaryOffset,
    )?;
    block.load(reader, at + 12, end, 16)?;
    let mut spare = [0; 16];
    spare.copy_from_slice(block.part(at + 12, 16));
    Ok((hashes, spare))
}

/// Reads the section at offset `at` and what follows it in the footer.
fn read_boundaries<R: ReadAt>(
    alloc: Global,
    reader: &mut R,
    at: u64,
    end: u64,
) -> Result<XorbObjectInfoV1, StoreError>
    requires { at ≤ end }
    ensures read { (bytes : List ℕ) → Tells (R.tells reader.old) (R.bytes reader.old) bytes end → IfOk result (λ i. boundaries (drop at bytes) ≡ Ok (i, drop (at + (40 + 8 * i.num_chunks)) bytes)) }
    ensures within { IfOk result (λ i. at + (40 + 8 * i.num_chunks) ≤ end) }
    ensures few { IfOk result (λ i. i.num_chunks ≤ max_chunks) }
    ensures refused { (bytes : List ℕ) → Tells (R.tells reader.old) (R.bytes reader.old) bytes end → IfErr result (RefusedBy (boundaries (drop at bytes))) }
    ensures kinds { IfErr result IsFooterError }
    ensures frame { ReadFrom R.bytes R.tells R.faults R.lent reader.old reader.new (IsErrOf result (Io Input)) }
{
    let mut block = Block::new(alloc);
    let count = read_head(reader, &mut block, at, end)?;
    let (ends, plain) = read_lists(alloc, reader, &mut block, at + 12, end, count)?;
    let tail = at + 12 + 8 * count as u64;
    let (hashes, spare) = read_tail(reader, &mut block, tail, end, count)?;
    let mut info = XorbObjectInfoV1::default(alloc);
    info.chunk_boundary_offsets = Items::from_vec(ends);
    info.unpacked_chunk_offsets = Items::from_vec(plain);
    info.num_chunks = count;
    info.hashes_section_offset_from_end = hashes;
    info.boundary_section_offset_from_end = 40 + 8 * count;
    info.spare = spare;
    Ok(info)
}

/// Offset of the section, from the number that starts 24 bytes before the end.
fn boundaries_start<R: ReadAt>(reader: &mut R, end: u64) -> Result<u64, StoreError>
    ensures read { (bytes : List ℕ) → Tells (R.tells reader.old) (R.bytes reader.old) bytes end → IfOk result (λ at. last_boundaries bytes ≡ boundaries (drop at bytes)) }
    ensures place { (bytes : List ℕ) → Tells (R.tells reader.old) (R.bytes reader.old) bytes end → IfOk result (λ at. at ≡ length bytes - (number_before 24 bytes + 4)) }
    ensures within { IfOk result (λ at. at ≤ end) }
    ensures refused { (bytes : List ℕ) → Tells (R.tells reader.old) (R.bytes reader.old) bytes end → IfErr result (RefusedBy (last_boundaries bytes)) }
    ensures kinds { IfErr result IsFooterError }
    ensures frame { ReadFrom R.bytes R.tells R.faults R.lent reader.old reader.new (IsErrOf result (Io Input)) }
{
    if end < 24 {
        return Err(StoreError::UnexpectedEof);
    }
    let mut told = [0; 4];
    read_exact(reader, end - 24, &mut told)?;
    let size = u32::from_le_bytes(told) as u64 + 4;
    if end < size {
        return Err(StoreError::UnexpectedEof);
    }
    Ok(end - size)
}
