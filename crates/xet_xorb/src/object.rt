//! A xorb's footer together with its length.

ghost use Rattle.std.specs.Prelude.{◌≡◌, ◌*◌, ◌+◌, ◌⊎◌, ℕ, ◌++◌, Ok, Err, true, IfErr, IfOk, IsErrOf, IsOkUnless, OnOk, length, take};
ghost use Rattle.xet_io.specs.Frame.{Called, ReadFrom};
ghost use Rattle.xet_hash.specs.declared.error.Place.TheVariants.{Input, Output};
ghost use Rattle.xet_hash.specs.declared.error.Reason.TheVariants.{InfoLength, ListLength};
ghost use Rattle.xet_hash.specs.declared.error.StoreError.TheVariants.{Io, MalformedData, OutOfMemory, UnexpectedEof};
ghost use Rattle.xet_codec.specs.Numbers.{number};
ghost use Rattle.xet_xorb_footer.specs.Ends.{last_footer, footer_length};
ghost use Rattle.xet_xorb_footer.specs.Errors.{IsFooterError};
ghost use Rattle.xet_xorb_footer.specs.FooterEncoding.{HasLists, HasShortLists, empty_v1, length_of, footer_bytes_v1};

use serde::Serialize;
use std::alloc::Global;
use xet_codec::write_piece;
use xet_hash::StoreError;
use xet_io::{ReadAt, Sink};
use xet_xorb_footer::{XorbObjectInfoV1, footer_length, last_footer};

/// A xorb's footer, and its length in the xorb.
#[derive(PartialEq, Eq, Debug, Drop, Serialize)]
pub struct XorbObject {
    /// The footer. One of version 0 is converted to version 1.
    pub info: XorbObjectInfoV1,
    /// Length of the footer in the xorb, in bytes, without the four bytes that hold this length.
    pub info_length: u32,
}

impl XorbObject {
    /// The footer of no chunks. Does not allocate.
    pub fn default(alloc: Global) -> XorbObject
        ensures { result ≡ record { info = empty_v1; info_length = 92 } }
    {
        XorbObject {
            info: XorbObjectInfoV1::default(alloc),
            info_length: 92,
        }
    }

    /// A copy. Its only error is `OutOfMemory`.
    pub fn clone(&self, alloc: Global) -> Result<XorbObject, StoreError>
        ensures same { IfOk result (λ copy. copy ≡ self.now) }
        ensures memory { IsOkUnless result StoreError.OutOfMemory }
    {
        Ok(XorbObject {
            info: self.info.clone(alloc)?,
            info_length: self.info_length,
        })
    }

    /// This footer, with the length of its encoding. Does not allocate.
    pub fn from_info(info: XorbObjectInfoV1) -> XorbObject
        requires { HasShortLists info }
        ensures { result ≡ record { info = info; info_length = length_of info } }
    {
        let info_length = info.serialized_length() as u32;
        XorbObject { info, info_length }
    }

    /// The length in bytes of the footer at the end of a xorb, which the last four bytes hold. Does not
    /// allocate. Errors: `UnexpectedEof` if there are fewer than four bytes, and `Io(Input)`.
    pub fn get_info_length<R: ReadAt>(reader: &mut R) -> Result<u32, StoreError>
        ensures read { R.tells reader.old ≡ true → IfOk result (λ n. footer_length (R.bytes reader.old) ≡ Ok n) }
        ensures refused { R.tells reader.old ≡ true → IfErr result (λ e. (footer_length (R.bytes reader.old) ≡ Err e) ⊎ (e ≡ Io Input)) }
        ensures kinds { IfErr result (λ e. (e ≡ UnexpectedEof) ⊎ (e ≡ Io Input)) }
        ensures frame { ReadFrom R.bytes R.tells R.faults R.lent reader.old reader.new (IsErrOf result (Io Input)) }
    {
        footer_length(reader)
    }

    /// Reads the footer at the end of a xorb. The bytes before the footer are not read.
    ///
    /// Errors: `UnexpectedEof` if the footer would start before the first byte, the first check of the footer
    /// that fails, `InfoLength` if the footer does not have the length after it, `Io(Input)` and
    /// `OutOfMemory`.
    pub fn deserialize<R: ReadAt>(alloc: Global, reader: &mut R) -> Result<XorbObject, StoreError>
        ensures read { R.tells reader.old ≡ true → IfOk result (λ o. last_footer (R.bytes reader.old) ≡ Ok (o.info, o.info_length)) }
        ensures refused { R.tells reader.old ≡ true → IfErr result (λ e. (last_footer (R.bytes reader.old) ≡ Err e) ⊎ (e ≡ Io Input) ⊎ (e ≡ OutOfMemory)) }
        ensures kinds { IfErr result (λ e. IsFooterError e ⊎ (e ≡ MalformedData InfoLength)) }
        ensures frame { ReadFrom R.bytes R.tells R.faults R.lent reader.old reader.new (IsErrOf result (Io Input)) }
    {
        let (info, info_length) = last_footer(alloc, reader)?;
        Ok(XorbObject { info, info_length })
    }

    /// Writes a footer and its length. Returns the footer with its length, and the number of bytes written.
    ///
    /// Fails with `MalformedData(ListLength)`, before anything is written, if a list does not have as many
    /// items as there are chunks. The other errors are `Io(Output)` and the sink's `OutOfMemory`; a prefix of
    /// the bytes was written then.
    pub fn serialize_given_info<W: Sink>(
        sink: &mut W,
        info: XorbObjectInfoV1,
    ) -> Result<(XorbObject, usize), StoreError>
        requires { HasShortLists info }
        ensures object { IfOk result (λ x. x.0 ≡ record { info = info; info_length = length_of info }) }
        ensures bytes { IfOk result (λ x. (x.1 ≡ length_of info + 4) × (length_of info ≡ length (footer_bytes_v1 info))) }
        ensures lists { (HasLists info → ⊥) → IsErrOf result (MalformedData ListLength) }
        ensures written { W.tells sink.old ≡ true → OnOk result (W.written sink.new ≡ W.written sink.old ++ (footer_bytes_v1 info ++ number (length_of info))) }
        ensures nothing { W.tells sink.old ≡ true → IsErrOf result (MalformedData ListLength) → W.written sink.new ≡ W.written sink.old }
        ensures prefix { W.tells sink.old ≡ true → (n : ℕ) × (W.written sink.new ≡ W.written sink.old ++ take n (footer_bytes_v1 info ++ number (length_of info))) }
        ensures refused { IfErr result (λ e. (e ≡ Io Output) ⊎ (e ≡ OutOfMemory) ⊎ ((e ≡ MalformedData ListLength) × (HasLists info → ⊥))) }
        ensures frame { Called W.tells W.faults sink.old sink.new (IsErrOf result (Io Output)) }
    {
        let count = info.serialize(sink)?;
        write_piece(sink, &(count as u32).to_le_bytes())?;
        Ok((XorbObject::from_info(info), count + 4))
    }
}
