//! The footer at the end of a xorb.

ghost use Rattle.std.specs.Prelude.{◌≡◌, ◌≤◌, ◌<◌, ◌+◌, ◌-◌, ◌*◌, ◌^◌, ◌⊎◌, List, ℕ, Ok, Err, true, IfErr, IfOk, IsErrOf, OnOk, drop, length, take};
ghost use Rattle.xet_hash.specs.declared.error.Place.TheVariants.{Input};
ghost use Rattle.xet_hash.specs.declared.error.Reason.TheVariants.{InfoLength};
ghost use Rattle.xet_hash.specs.declared.error.StoreError.TheVariants.{Io, MalformedData, OutOfMemory, UnexpectedEof};
ghost use Rattle.xet_xorb_footer.specs.Ends.{last_footer, footer_length};
ghost use Rattle.xet_xorb_footer.specs.internal.Machine.{IsIncomplete};
ghost use Rattle.xet_codec.specs.Blocks.{IsPart, RefusedBy, Sees};
ghost use Rattle.xet_xorb_footer.specs.Reader.{bytes_left, bytes_wanted, footer_parts_of, rest_of};
ghost use Rattle.xet_xorb_footer.specs.Errors.{IsFooterError};
ghost use Rattle.xet_io.specs.Frame.{ReadFrom};

use crate::info::XorbObjectInfoV1;
use crate::machine::FooterReader;
use std::alloc::Global;
use xet_codec::{Block, read_exact, reader_length};
use xet_hash::{Reason, StoreError};
use xet_io::ReadAt;

/// Size of the field that holds a footer's length, in bytes.
const LENGTH_SIZE: u64 = 4;

/// The length of the footer in bytes, which the last four bytes hold. Does not allocate. Errors:
/// `UnexpectedEof` if there are fewer than four bytes, and `Io(Input)`.
pub fn footer_length<R: ReadAt>(reader: &mut R) -> Result<u32, StoreError>
    ensures read { R.tells reader.old ≡ true → IfOk result (λ n. footer_length (R.bytes reader.old) ≡ Ok n) }
    ensures refused { R.tells reader.old ≡ true → IfErr result (λ e. (footer_length (R.bytes reader.old) ≡ Err e) ⊎ (e ≡ Io Input)) }
    ensures kinds { IfErr result (λ e. (e ≡ UnexpectedEof) ⊎ (e ≡ Io Input)) }
    ensures frame { ReadFrom R.bytes R.tells R.faults R.lent reader.old reader.new (IsErrOf result (Io Input)) }
{
    let len = reader_length(reader)?;
    number_at_end(reader, len)
}

/// Reads the footer before the last four bytes, which hold its length, and returns it with that length. The
/// bytes before the footer are not read. It is read in blocks of 64 KiB, or in one block if it is shorter.
///
/// Errors: `UnexpectedEof` if it would start before the first byte, the first check that fails, `InfoLength`
/// if the footer does not end exactly four bytes before the end, `Io(Input)` and `OutOfMemory`.
pub fn last_footer<R: ReadAt>(
    alloc: Global,
    reader: &mut R,
) -> Result<(XorbObjectInfoV1, u32), StoreError>
    ensures read { R.tells reader.old ≡ true → IfOk result (λ x. last_footer (R.bytes reader.old) ≡ Ok (x.0, x.1)) }
    ensures refused { R.tells reader.old ≡ true → IfErr result (λ e. (last_footer (R.bytes reader.old) ≡ Err e) ⊎ (e ≡ Io Input) ⊎ (e ≡ OutOfMemory)) }
    ensures kinds { IfErr result (λ e. IsFooterError e ⊎ (e ≡ MalformedData InfoLength)) }
    ensures frame { ReadFrom R.bytes R.tells R.faults R.lent reader.old reader.new (IsErrOf result (Io Input)) }
{
    let len = reader_length(reader)?;
    footer_before(alloc, reader, len)
}

/// `footer_length` of a reader of `len` bytes.
fn number_at_end<R: ReadAt>(reader: &mut R, len: u64) -> Result<u32, StoreError>
    ensures read { R.tells reader.old ≡ true → len ≡ length (R.bytes reader.old) → IfOk result (λ n. footer_length (R.bytes reader.old) ≡ Ok n) }
    ensures refused { R.tells reader.old ≡ true → len ≡ length (R.bytes reader.old) → IfErr result (λ e. (footer_length (R.bytes reader.old) ≡ Err e) ⊎ (e ≡ Io Input)) }
    ensures kinds { IfErr result (λ e. (e ≡ UnexpectedEof) ⊎ (e ≡ Io Input)) }
    ensures frame { ReadFrom R.bytes R.tells R.faults R.lent reader.old reader.new (IsErrOf result (Io Input)) }
{
    if len < LENGTH_SIZE {
        return Err(StoreError::UnexpectedEof);
    }
    let mut last = [0; 4];
    read_exact(reader, len - LENGTH_SIZE, &mut last)?;
    Ok(u32::from_le_bytes(last))
}

/// `last_footer` of a reader of `len` bytes.
fn footer_before<R: ReadAt>(
    alloc: Global,
    reader: &mut R,
    len: u64,
) -> Result<(XorbObjectInfoV1, u32), StoreError>
    ensures read { R.tells reader.old ≡ true → len ≡ length (R.bytes reader.old) → IfOk result (λ x. last_footer (R.bytes reader.old) ≡ Ok (x.0, x.1)) }
    ensures refused { R.tells reader.old ≡ true → len ≡ length (R.bytes reader.old) → IfErr result (λ e. (last_footer (R.bytes reader.old) ≡ Err e) ⊎ (e ≡ Io Input) ⊎ (e ≡ OutOfMemory)) }
    ensures kinds { IfErr result (λ e. IsFooterError e ⊎ (e ≡ MalformedData InfoLength)) }
    ensures frame { ReadFrom R.bytes R.tells R.faults R.lent reader.old reader.new (IsErrOf result (Io Input)) }
{
    let told = number_at_end(reader, len)?;
    let size = told as u64 + LENGTH_SIZE;
    if len < size {
        return Err(StoreError::UnexpectedEof);
    }
    let mut footer = FooterReader::of_either(alloc, size);
    let to = read_fields_at(alloc, &mut footer, reader, len - size, len)?;
    if len - to != LENGTH_SIZE {
        return Err(StoreError::MalformedData(Reason::InfoLength));
    }
    Ok((footer.into_v1(), told))
}

/// Reads all remaining fields from offset `at` on, before offset `end`, and returns the offset after them.
/// The fields are taken from blocks of 64 KiB, or from one block if fewer bytes are left.
fn read_fields_at<R: ReadAt>(
    alloc: Global,
    footer: &mut FooterReader,
    reader: &mut R,
    at: u64,
    end: u64,
) -> Result<u64, StoreError>
    requires settled { IsIncomplete footer.old.next (footer_parts_of footer.old) }
    requires within { at ≤ end }
    ensures read { R.tells reader.old ≡ true → end ≡ length (R.bytes reader.old) → IfOk result (λ to. rest_of footer.old (drop at (R.bytes reader.old)) ≡ Ok (footer_parts_of footer.new, drop to (R.bytes reader.old))) }
    ensures within { IfOk result (λ to. to ≤ end) }
    ensures refused { R.tells reader.old ≡ true → end ≡ length (R.bytes reader.old) → IfErr result (λ e. (rest_of footer.old (drop at (R.bytes reader.old)) ≡ Err e) ⊎ (e ≡ Io Input) ⊎ (e ≡ OutOfMemory)) }
    ensures kinds { IfErr result IsFooterError }
    ensures frame { ReadFrom R.bytes R.tells R.faults R.lent reader.old reader.new (IsErrOf result (Io Input)) }
{
    let mut block = Block::new(alloc);
    let mut to = at;
    'fields: while footer.wanted() > 0 {
        to = read_field_at(footer, reader, &mut block, to, end)?;
    }
    Ok(to)
}

/// Reads the next field at offset `at`, before offset `end`, and returns the offset after it.
fn read_field_at<R: ReadAt>(
    footer: &mut FooterReader,
    reader: &mut R,
    block: &mut Block,
    at: u64,
    end: u64,
) -> Result<u64, StoreError>
    requires { at ≤ end }
    ensures taken { (bytes : List ℕ) → Sees (R.tells reader.old) (R.bytes reader.old) bytes end block.old → IfOk result (λ to. rest_of footer.old (drop at bytes) ≡ rest_of footer.new (drop to bytes)) }
    ensures part { (bytes : List ℕ) → Sees (R.tells reader.old) (R.bytes reader.old) bytes end block.old → OnOk result (IsPart block.new bytes) }
    ensures within { IfOk result (λ to. to ≤ end) }
    ensures wanted { IfOk result (λ to. to ≡ at + bytes_wanted footer.old) }
    ensures settled { OnOk result (IsIncomplete footer.new.next (footer_parts_of footer.new)) }
    ensures left { OnOk result (bytes_wanted footer.old + bytes_left footer.new ≤ bytes_left footer.old) }
    ensures refused { (bytes : List ℕ) → Sees (R.tells reader.old) (R.bytes reader.old) bytes end block.old → IfErr result (RefusedBy (rest_of footer.old (drop at bytes))) }
    ensures kinds { IfErr result IsFooterError }
    ensures frame { ReadFrom R.bytes R.tells R.faults R.lent reader.old reader.new (IsErrOf result (Io Input)) }
{
    let wanted = footer.wanted();
    block.load(reader, at, end, wanted)?;
    footer.take(block.part(at, wanted))?;
    Ok(at + wanted as u64)
}
