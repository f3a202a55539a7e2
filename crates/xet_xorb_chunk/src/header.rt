//! The header of a stored chunk: eight bytes (docs/FORMATS.md, Stored chunk).

ghost use Rattle.std.specs.Prelude.{◌≡◌, ◌≢◌, ◌*◌, ◌<◌, ◌≤◌, ◌^◌, ◌++◌, ℕ, List, true, IfErr, IfOk, IsErrOf, MatchResult, OnOk, length, take};
ghost use Rattle.xet_hash.specs.declared.error.StoreError.TheVariants.{Io};
ghost use Rattle.xet_hash.specs.declared.error.Place.TheVariants.{Output};
ghost use Rattle.xet_xorb_chunk.specs.Header.{header_at, header_bytes, header_of, is_footer_magic};
ghost use Rattle.xet_xorb_chunk.specs.Checks.{IsCheck};
ghost use Rattle.xet_codec.specs.Stops.{StopsWriting};
ghost use Rattle.xet_xorb_chunk.specs.Scheme.{scheme_number, scheme_of};
ghost use Rattle.xet_xorb_chunk.specs.Stream.{Fails, Whole, body_of};
ghost use Rattle.xet_io.specs.Frame.{Called};

use crate::scheme::CompressionScheme;
use std::marker::Model;
use xet_codec::write_piece;
use xet_hash::{Reason, StoreError};
use xet_io::Sink;

/// Length of a chunk header, in bytes.
pub const XORB_CHUNK_HEADER_LENGTH: usize = 8;

/// The header of a stored chunk. Contracts see its four numbers.
#[derive(Clone, Copy, PartialEq, Eq, Debug)]
pub struct XorbChunkHeader {
    /// Format version. Only 0 passes `parse_chunk_header`.
    pub version: u8,
    stored: u32,
    scheme: u8,
    plain: u32,
}

impl Model for XorbChunkHeader {
    ghost use Rattle.xet_xorb_chunk.specs.Header.{Header};

    ghost Value = { Header };

    ghost view = { λ h. record { version = h.version; stored = h.stored; scheme = h.scheme; plain = h.plain } };

    ghost inverse = { λ h. record { version = h.version; stored = h.stored; scheme = h.scheme; plain = h.plain } };
}

impl XorbChunkHeader {
    /// A header of version 0. `compressed` and `uncompressed` are lengths in bytes, below 2^24. The scheme
    /// must not be `Auto`.
    pub fn new(scheme: CompressionScheme, compressed: u32, uncompressed: u32) -> XorbChunkHeader
        requires stored { compressed < 2 ^ 24 }
        requires plain { uncompressed < 2 ^ 24 }
        requires chosen { scheme ≢ CompressionScheme.Auto }
        ensures { result ≡ record { version = 0; stored = compressed; scheme = scheme_number scheme; plain = uncompressed } }
    {
        XorbChunkHeader {
            version: 0,
            stored: compressed,
            scheme: scheme.number(),
            plain: uncompressed,
        }
    }

    /// Sets the length of the stored body, in bytes, below 2^24.
    pub fn set_compressed_length(&mut self, length: u32)
        requires { length < 2 ^ 24 }
        ensures { self.new ≡ record self.old { stored = length } }
    {
        self.stored = length;
    }

    /// Sets the length of the chunk's content, in bytes, below 2^24.
    pub fn set_uncompressed_length(&mut self, length: u32)
        requires { length < 2 ^ 24 }
        ensures { self.new ≡ record self.old { plain = length } }
    {
        self.plain = length;
    }

    /// Sets the scheme, which must not be `Auto`.
    pub fn set_compression_scheme(&mut self, scheme: CompressionScheme)
        requires { scheme ≢ CompressionScheme.Auto }
        ensures { self.new ≡ record self.old { scheme = scheme_number scheme } }
    {
        self.scheme = scheme.number();
    }

    /// Length of the stored body, in bytes.
    pub fn get_compressed_length(&self) -> u32
        ensures { result ≡ self.now.stored }
    {
        self.stored
    }

    /// Length of the chunk's content, in bytes.
    pub fn get_uncompressed_length(&self) -> u32
        ensures { result ≡ self.now.plain }
    {
        self.plain
    }

    /// The scheme. Fails with `MalformedData(Scheme)` if the number is that of no scheme.
    pub fn get_compression_scheme(&self) -> Result<CompressionScheme, StoreError>
        ensures { result ≡ scheme_of self.now.scheme }
    {
        CompressionScheme::try_from(self.scheme)
    }

    /// Checks that a body of the stored length can be read: the scheme is `None` (else `AutoScheme` or
    /// `CompressionError`), and both lengths are equal (else `BodyLength`).
    pub(crate) fn check_body(&self) -> Result<(), StoreError>
        ensures body { (body : List ℕ) → MatchResult result (λ _. body_of self.now body ≡ Whole body) (λ e. body_of self.now body ≡ Fails e) }
        ensures same { OnOk result (self.now.stored ≡ self.now.plain) }
        ensures check { IfErr result IsCheck }
    {
        if self.scheme == CompressionScheme::Auto.number() {
            return Err(StoreError::MalformedData(Reason::AutoScheme));
        }
        if self.scheme != CompressionScheme::None.number() {
            return Err(StoreError::CompressionError(self.scheme));
        }
        if self.stored != self.plain {
            return Err(StoreError::MalformedData(Reason::BodyLength));
        }
        Ok(())
    }
}

impl Default for XorbChunkHeader {
    ghost is_default = { λ h. h ≡ record { version = 0; stored = 0; scheme = 0; plain = 0 } };

    /// The header of an empty chunk.
    fn default() -> XorbChunkHeader {
        XorbChunkHeader {
            version: 0,
            stored: 0,
            scheme: 0,
            plain: 0,
        }
    }
}

/// Writes the eight bytes of a header, with the version that it has. After an error a prefix of them was
/// written. Does not allocate, but the sink may.
pub fn write_chunk_header<W: Sink>(w: &mut W, header: &XorbChunkHeader) -> Result<(), StoreError>
    ensures whole { W.tells w.old ≡ true → OnOk result (W.written w.new ≡ W.written w.old ++ header_bytes header.now) }
    ensures prefix { W.tells w.old ≡ true → (n : ℕ) × (W.written w.new ≡ W.written w.old ++ take n (header_bytes header.now)) }
    ensures errors { IfErr result StopsWriting }
    ensures frame { Called W.tells W.faults w.old w.new (IsErrOf result (Io Output)) }
{
    write_piece(w, &bytes_of_header(header))
}

fn bytes_of_header(header: &XorbChunkHeader) -> [u8; 8]
    ensures { result ≡ header_bytes header.now }
{
    let [a, b, c, _] = header.stored.to_le_bytes();
    let [d, e, f, _] = header.plain.to_le_bytes();
    [header.version, a, b, c, header.scheme, d, e, f]
}

/// Parses a chunk header. The chunk may have at most `max_chunk` bytes, which is below 2^23.
///
/// The error is that of the first check that fails:
/// - the bytes do not begin like a footer (`ChunkHeaderParse`)
/// - the scheme is known (`MalformedData(Scheme)`)
/// - the version is 0 (`MalformedData(HeaderVersion)`)
/// - the compressed length is at most `2 * max_chunk` (`MalformedData(StoredLength)`)
/// - the uncompressed length is at most `max_chunk` (`MalformedData(PlainLength)`)
pub fn parse_chunk_header(bytes: [u8; 8], max_chunk: u32) -> Result<XorbChunkHeader, StoreError>
    requires { max_chunk < 2 ^ 23 }
    ensures header { result ≡ header_at max_chunk bytes }
    ensures small { IfOk result (λ header. header.stored ≤ 2 * max_chunk) }
    ensures check { IfErr result IsCheck }
{
    if is_footer_magic(&bytes) {
        return Err(StoreError::ChunkHeaderParse);
    }
    let header = header_of(bytes);
    header.get_compression_scheme()?;
    if header.version != 0 {
        return Err(StoreError::MalformedData(Reason::HeaderVersion));
    }
    if header.stored > 2 * max_chunk {
        return Err(StoreError::MalformedData(Reason::StoredLength));
    }
    if header.plain > max_chunk {
        return Err(StoreError::MalformedData(Reason::PlainLength));
    }
    Ok(header)
}

/// Whether the bytes begin with the magic of a footer.
fn is_footer_magic(bytes: &[u8]) -> bool
    requires { 7 ≤ length bytes.now }
    ensures { result ≡ is_footer_magic bytes.now }
{
    &bytes[..7] == b"XETBLOB".as_slice()
}

/// Splits the bytes into the fields, without any check.
fn header_of(bytes: [u8; 8]) -> XorbChunkHeader
    ensures { result ≡ header_of bytes }
{
    let [version, a, b, c, scheme, d, e, f] = bytes;
    XorbChunkHeader {
        version,
        stored: u32::from_le_bytes([a, b, c, 0]),
        scheme,
        plain: u32::from_le_bytes([d, e, f, 0]),
    }
}
