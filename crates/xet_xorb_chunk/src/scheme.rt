//! Compression schemes of stored chunks.

ghost use Rattle.std.specs.Prelude.{◌≡◌, ◌<◌, ◌^◌, ◌⊎◌, ◌++◌, [], ℕ, true, MatchResult, IfErr, IfOk, IsErrOf, OnOk, Ok, Err, Some, length, take};
ghost use Rattle.std.specs.Cow.{cow_slice_items};
ghost use Rattle.std.specs.Str.{bytes_eq, str_to_ascii_lowercase, trim};
ghost use Rattle.xet_hash.specs.declared.error.StoreError.{StoreError};
ghost use Rattle.xet_hash.specs.declared.error.StoreError.TheVariants.{Io};
ghost use Rattle.xet_hash.specs.declared.error.Place.TheVariants.{Input, Output};
ghost use Rattle.xet_codec.specs.Stops.{PassesLimit, StopsWriting};
ghost use Rattle.xet_xorb_chunk.specs.Scheme.{compressed, decompressed, scheme_number, resolved, scheme_name, scheme_named, scheme_of};
ghost use Rattle.xet_io.specs.Frame.{Called};

use std::alloc::Global;
use std::borrow::CowSlice;
use std::fmt;
use std::str::FromStr;
use xet_codec::{copy_all, new_block};
use xet_hash::{Reason, StoreError};
use xet_io::{Sink, Source};

/// A compression scheme. The discriminant is its number in a chunk header.
#[derive(Clone, Copy, PartialEq, Eq, Debug)]
pub enum CompressionScheme {
    /// The bytes are stored as they are.
    None = 0,
    /// LZ4. No call here reads or writes it.
    LZ4 = 1,
    /// LZ4 over bytes in four groups. No call here reads or writes it.
    ByteGrouping4LZ4 = 2,
    /// Chosen when a chunk is stored; at present always `None`.
    Auto = 99,
}

impl CompressionScheme {
    /// The scheme's name: `none`, `lz4`, `bg4-lz4` or `auto`.
    fn name(self) -> &'static str
        ensures { result.now ≡ scheme_name self }
    {
        match self {
            CompressionScheme::None => "none",
            CompressionScheme::LZ4 => "lz4",
            CompressionScheme::ByteGrouping4LZ4 => "bg4-lz4",
            CompressionScheme::Auto => "auto",
        }
    }

    /// The scheme's number in a chunk header.
    pub(crate) fn number(self) -> u8
        ensures { result ≡ scheme_number self }
    {
        self as u8
    }

    /// The scheme under which these bytes are stored: `None` for `Auto`, otherwise the scheme itself.
    pub fn resolve_for_data(&self, _bytes: &[u8]) -> CompressionScheme
        ensures { result ≡ resolved self.now }
    {
        match *self {
            CompressionScheme::Auto => CompressionScheme::None,
            scheme => scheme,
        }
    }

    /// The bytes as they are stored under `None` or `Auto`. Does not allocate. The other schemes fail with
    /// `CompressionError` of their number.
    pub fn compress_from_slice<'a>(&self, bytes: &'a [u8]) -> Result<CowSlice<'a, u8>, StoreError>
        ensures { MatchResult result (λ stored. compressed self.now bytes.now ≡ Ok (cow_slice_items stored)) (λ e. compressed self.now bytes.now ≡ Err e) }
    {
        match *self {
            CompressionScheme::None | CompressionScheme::Auto => Ok(CowSlice::Borrowed(bytes)),
            scheme => Err(StoreError::CompressionError(scheme.number())),
        }
    }

    /// The content of bytes that were stored under `None`. Does not allocate. `Auto` fails with
    /// `MalformedData(AutoScheme)`, the other schemes with `CompressionError` of their number.
    pub fn decompress_from_slice<'a>(&self, bytes: &'a [u8]) -> Result<CowSlice<'a, u8>, StoreError>
        ensures { MatchResult result (λ plain. decompressed self.now bytes.now ≡ Ok (cow_slice_items plain)) (λ e. decompressed self.now bytes.now ≡ Err e) }
    {
        match *self {
            CompressionScheme::None => Ok(CowSlice::Borrowed(bytes)),
            CompressionScheme::Auto => Err(StoreError::MalformedData(Reason::AutoScheme)),
            scheme => Err(StoreError::CompressionError(scheme.number())),
        }
    }

    /// Writes the content of all bytes left in a source, stored under `None`, and returns its length in
    /// bytes. An observable source must have fewer than 2^63 bytes left.
    ///
    /// The other schemes fail as in `decompress_from_slice`, before a byte is read. Further errors are
    /// `Io(Input)`, `Io(Output)`, `OutOfMemory`, and `TooLarge(Input)` after 2^63 bytes, which only a source
    /// that is not observable can have. A prefix of the bytes was written then.
    pub fn decompress_from_reader<R: Source, W: Sink>(
        &self,
        alloc: Global,
        r: &mut R,
        w: &mut W,
    ) -> Result<u64, StoreError>
        requires { R.tells r.old ≡ true → length (R.left r.old) < 2 ^ 63 }
        ensures refused { (e : StoreError) → decompressed self.now [] ≡ Err e → result ≡ Err e }
        ensures unread { R.tells r.old ≡ true → (e : StoreError) → decompressed self.now [] ≡ Err e → R.left r.new ≡ R.left r.old }
        ensures count { R.tells r.old ≡ true → IfOk result (λ count. count ≡ length (R.left r.old)) }
        ensures end { R.tells r.old ≡ true → OnOk result (R.left r.new ≡ []) }
        ensures whole { R.tells r.old ≡ true → W.tells w.old ≡ true → OnOk result (W.written w.new ≡ W.written w.old ++ R.left r.old) }
        ensures prefix { R.tells r.old ≡ true → W.tells w.old ≡ true → (n : ℕ) × (W.written w.new ≡ W.written w.old ++ take n (R.left r.old)) }
        ensures nothing { W.tells w.old ≡ true → (e : StoreError) → decompressed self.now [] ≡ Err e → W.written w.new ≡ W.written w.old }
        ensures errors { R.tells r.old ≡ true → IfErr result (λ e. (decompressed self.now [] ≡ Err e) ⊎ ((e ≡ Io Input) ⊎ StopsWriting e)) }
        ensures kinds { IfErr result (λ e. (decompressed self.now [] ≡ Err e) ⊎ ((e ≡ Io Input) ⊎ (StopsWriting e ⊎ PassesLimit e))) }
        ensures source { Called R.tells R.faults r.old r.new (IsErrOf result (Io Input)) }
        ensures sink { Called W.tells W.faults w.old w.new (IsErrOf result (Io Output)) }
    {
        self.decompress_from_slice(&[])?;
        let mut block = new_block(alloc)?;
        copy_all(r, w, &mut block)
    }
}

impl Default for CompressionScheme {
    ghost use Rattle.std.specs.Prelude.{◌≡◌};
    ghost use Rattle.xet_xorb_chunk.specs.declared.scheme.CompressionScheme.TheVariants.{Auto};

    ghost is_default = { λ scheme. scheme ≡ Auto };

    /// `Auto`.
    fn default() -> CompressionScheme {
        CompressionScheme::Auto
    }
}

impl fmt::Display for CompressionScheme {
    ghost output = { λ scheme. Some (scheme_name scheme) };

    fn fmt<W: fmt::Write>(&self, f: &mut fmt::Formatter<W>) -> fmt::Result {
        f.write_str(self.name())
    }
}

impl From<CompressionScheme> for &'static str {
    ghost from_gives = { λ scheme name. name.now ≡ scheme_name scheme };

    fn from(scheme: CompressionScheme) -> &'static str {
        scheme.name()
    }
}

impl From<&CompressionScheme> for &'static str {
    ghost from_gives = { λ scheme name. name.now ≡ scheme_name scheme.now };

    fn from(scheme: &CompressionScheme) -> &'static str {
        scheme.name()
    }
}

impl TryFrom<u8> for CompressionScheme {
    type Error = StoreError;

    ghost try_from_gives = { λ number r. r ≡ scheme_of number };

    /// The scheme with this number. Fails with `MalformedData(Scheme)` if there is none.
    fn try_from(number: u8) -> Result<CompressionScheme, StoreError> {
        match number {
            0 => Ok(CompressionScheme::None),
            1 => Ok(CompressionScheme::LZ4),
            2 => Ok(CompressionScheme::ByteGrouping4LZ4),
            99 => Ok(CompressionScheme::Auto),
            _ => Err(StoreError::MalformedData(Reason::Scheme)),
        }
    }
}

impl FromStr for CompressionScheme {
    type Err = StoreError;

    ghost from_str_gives = { λ text r. r ≡ scheme_named (str_to_ascii_lowercase (trim text)) };

    /// The scheme with this name, in letters of either case and with white space around it; `Auto` if the
    /// name is empty. Fails with `MalformedData(SchemeText)` for another string.
    fn from_str(text: &str) -> Result<CompressionScheme, StoreError> {
        let name = text.trim();
        if name.is_empty() {
            return Ok(CompressionScheme::Auto);
        }
        if is_name(name, CompressionScheme::Auto) {
            return Ok(CompressionScheme::Auto);
        }
        if is_name(name, CompressionScheme::None) {
            return Ok(CompressionScheme::None);
        }
        if is_name(name, CompressionScheme::LZ4) {
            return Ok(CompressionScheme::LZ4);
        }
        if is_name(name, CompressionScheme::ByteGrouping4LZ4) {
            return Ok(CompressionScheme::ByteGrouping4LZ4);
        }
        Err(StoreError::MalformedData(Reason::SchemeText))
    }
}

/// Whether `text` is the scheme's name, in letters of either case.
fn is_name(text: &str, scheme: CompressionScheme) -> bool
    ensures { result ≡ bytes_eq (str_to_ascii_lowercase text.now) (scheme_name scheme) }
{
    text.eq_ignore_ascii_case(scheme.name())
}
