//! Footers that are read from sources.

ghost use Rattle.std.specs.Prelude.{◌≡◌, ◌≤◌, ◌+◌, ◌*◌, ◌⊎◌, ℕ, [], Ok, Err, true, IfErr, IfOk, IsErrOf, OnOk, drop, length};
ghost use Rattle.xet_hash.specs.declared.error.Place.TheVariants.{Input};
ghost use Rattle.xet_hash.specs.declared.error.StoreError.TheVariants.{Io, OutOfMemory, UnexpectedEof};
ghost use Rattle.xet_xorb_footer.specs.internal.Machine.{IsIncomplete};
ghost use Rattle.xet_xorb_footer.specs.Reader.{bytes_left, bytes_wanted, footer_parts_of, rest_of};
ghost use Rattle.xet_xorb_footer.specs.Reading.{footer_at, footer_v0, rest_v0};
ghost use Rattle.xet_xorb_footer.specs.Errors.{IsFooterError};
ghost use Rattle.xet_xorb_footer.specs.FooterEncoding.{max_chunks};
ghost use Rattle.xet_io.specs.Frame.{Called};

use crate::info::{XorbObjectInfoV0, XorbObjectInfoV1};
use crate::machine::FooterReader;
use std::alloc::Global;
use xet_codec::read_prefix;
use xet_hash::StoreError;
use xet_io::Source;

/// Maximum size of a field, in bytes: 64 hashes.
const BLOCK: usize = 2048;

impl XorbObjectInfoV1 {
    /// Reads a footer of either version from a source, as one of version 1, and returns it with its number of
    /// bytes.
    ///
    /// Errors: the first check that fails, `UnexpectedEof` if the bytes end inside the footer, `Io(Input)`
    /// and `OutOfMemory`. In every case a prefix of the source is taken: with a footer exactly its bytes,
    /// with `UnexpectedEof` all bytes. So the source is read field by field, not in larger blocks: what
    /// follows the footer stays there.
    pub fn deserialize<R: Source>(
        alloc: Global,
        source: &mut R,
    ) -> Result<(XorbObjectInfoV1, u32), StoreError>
        ensures read { R.tells source.old ≡ true → IfOk result (λ x. footer_at (R.left source.old) ≡ Ok (x.0, R.left source.new)) }
        ensures count { R.tells source.old ≡ true → IfOk result (λ x. length (R.left source.old) ≡ x.1 + length (R.left source.new)) }
        ensures refused { R.tells source.old ≡ true → IfErr result (λ e. (footer_at (R.left source.old) ≡ Err e) ⊎ (e ≡ Io Input) ⊎ (e ≡ OutOfMemory)) }
        ensures consumed { R.tells source.old ≡ true → (n : ℕ) × (R.left source.new ≡ drop n (R.left source.old)) }
        ensures ended { R.tells source.old ≡ true → IsErrOf result UnexpectedEof → R.left source.new ≡ [] }
        ensures kinds { IfErr result IsFooterError }
        ensures frame { Called R.tells R.faults source.old source.new (IsErrOf result (Io Input)) }
    {
        let mut reader = FooterReader::of_either(alloc, 0);
        let count = read_fields(&mut reader, source)?;
        Ok((reader.into_v1(), count))
    }
}

impl XorbObjectInfoV0 {
    /// Reads a footer of version 0 from a source, and returns it with its number of bytes. Errors, and what
    /// is taken of the source, are as in `XorbObjectInfoV1::deserialize`.
    pub fn deserialize<R: Source>(
        alloc: Global,
        source: &mut R,
    ) -> Result<(XorbObjectInfoV0, u32), StoreError>
        ensures read { R.tells source.old ≡ true → IfOk result (λ x. footer_v0 (R.left source.old) ≡ Ok (x.0, R.left source.new)) }
        ensures count { R.tells source.old ≡ true → IfOk result (λ x. length (R.left source.old) ≡ x.1 + length (R.left source.new)) }
        ensures refused { R.tells source.old ≡ true → IfErr result (λ e. (footer_v0 (R.left source.old) ≡ Err e) ⊎ (e ≡ Io Input) ⊎ (e ≡ OutOfMemory)) }
        ensures consumed { R.tells source.old ≡ true → (n : ℕ) × (R.left source.new ≡ drop n (R.left source.old)) }
        ensures ended { R.tells source.old ≡ true → IsErrOf result UnexpectedEof → R.left source.new ≡ [] }
        ensures kinds { IfErr result IsFooterError }
        ensures frame { Called R.tells R.faults source.old source.new (IsErrOf result (Io Input)) }
    {
        let mut reader = FooterReader::of_v0(alloc);
        let count = read_fields(&mut reader, source)?;
        Ok((reader.into_v0(), count))
    }

    /// Reads what follows the magic and the version in a footer of version 0, and returns the footer with the
    /// number of bytes read.
    pub fn deserialize_v0<R: Source>(
        alloc: Global,
        source: &mut R,
    ) -> Result<(XorbObjectInfoV0, u32), StoreError>
        ensures read { R.tells source.old ≡ true → IfOk result (λ x. rest_v0 (R.left source.old) ≡ Ok (x.0, R.left source.new)) }
        ensures count { R.tells source.old ≡ true → IfOk result (λ x. length (R.left source.old) ≡ x.1 + length (R.left source.new)) }
        ensures refused { R.tells source.old ≡ true → IfErr result (λ e. (rest_v0 (R.left source.old) ≡ Err e) ⊎ (e ≡ Io Input) ⊎ (e ≡ OutOfMemory)) }
        ensures consumed { R.tells source.old ≡ true → (n : ℕ) × (R.left source.new ≡ drop n (R.left source.old)) }
        ensures ended { R.tells source.old ≡ true → IsErrOf result UnexpectedEof → R.left source.new ≡ [] }
        ensures kinds { IfErr result IsFooterError }
        ensures frame { Called R.tells R.faults source.old source.new (IsErrOf result (Io Input)) }
    {
        let mut reader = FooterReader::of_rest_v0(alloc);
        let count = read_fields(&mut reader, source)?;
        Ok((reader.into_v0(), count))
    }
}

/// Reads all remaining fields, and returns their number of bytes.
fn read_fields<R: Source>(reader: &mut FooterReader, source: &mut R) -> Result<u32, StoreError>
    requires settled { IsIncomplete reader.old.next (footer_parts_of reader.old) }
    requires left { bytes_left reader.old ≤ 92 + 40 * max_chunks }
    ensures read { R.tells source.old ≡ true → OnOk result (rest_of reader.old (R.left source.old) ≡ Ok (footer_parts_of reader.new, R.left source.new)) }
    ensures count { R.tells source.old ≡ true → IfOk result (λ n. length (R.left source.old) ≡ n + length (R.left source.new)) }
    ensures refused { R.tells source.old ≡ true → IfErr result (λ e. (rest_of reader.old (R.left source.old) ≡ Err e) ⊎ (e ≡ Io Input) ⊎ (e ≡ OutOfMemory)) }
    ensures consumed { R.tells source.old ≡ true → (n : ℕ) × (R.left source.new ≡ drop n (R.left source.old)) }
    ensures ended { R.tells source.old ≡ true → IsErrOf result UnexpectedEof → R.left source.new ≡ [] }
    ensures kinds { IfErr result IsFooterError }
    ensures frame { Called R.tells R.faults source.old source.new (IsErrOf result (Io Input)) }
{
    let mut block = [0; BLOCK];
    let mut count: u32 = 0;
    'fields: while reader.wanted() > 0 {
        let taken = read_field(reader, source, &mut block)?;
        count += taken;
    }
    Ok(count)
}

/// Reads the next field, and returns its number of bytes.
fn read_field<R: Source>(
    reader: &mut FooterReader,
    source: &mut R,
    block: &mut [u8],
) -> Result<u32, StoreError>
    requires { 2048 ≤ length block.old }
    ensures taken { R.tells source.old ≡ true → OnOk result (rest_of reader.old (R.left source.old) ≡ rest_of reader.new (R.left source.new)) }
    ensures count { R.tells source.old ≡ true → IfOk result (λ n. length (R.left source.old) ≡ n + length (R.left source.new)) }
    ensures wanted { IfOk result (λ n. n ≡ bytes_wanted reader.old) }
    ensures settled { OnOk result (IsIncomplete reader.new.next (footer_parts_of reader.new)) }
    ensures left { IfOk result (λ n. n + bytes_left reader.new ≤ bytes_left reader.old) }
    ensures refused { R.tells source.old ≡ true → IfErr result (λ e. (rest_of reader.old (R.left source.old) ≡ Err e) ⊎ (e ≡ Io Input) ⊎ (e ≡ OutOfMemory)) }
    ensures consumed { R.tells source.old ≡ true → (n : ℕ) × (R.left source.new ≡ drop n (R.left source.old)) }
    ensures ended { R.tells source.old ≡ true → IsErrOf result UnexpectedEof → R.left source.new ≡ [] }
    ensures kinds { IfErr result IsFooterError }
    ensures frame { Called R.tells R.faults source.old source.new (IsErrOf result (Io Input)) }
{
    let wanted = reader.wanted();
    let (field, _) = block.split_at_mut(wanted);
    let count = read_prefix(source, field)?;
    if count < wanted {
        return Err(StoreError::UnexpectedEof);
    }
    reader.take(field)?;
    Ok(wanted as u32)
}
