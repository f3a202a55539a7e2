//! Tests of stored chunks, headers, schemes and streams.

ghost use Rattle.std.specs.Prelude.{◌<◌, ◌^◌};

use std::alloc::{AllocError, Global};
use std::str::FromStr;
use std::test::Fail;
use xet_hash::{Place, Reason, StoreError};
use xet_io::{FailingSink, FailingSource, MemorySink, SliceSource};
use xet_xorb_chunk::*;

#[test]
fn scheme_numbers(rt: HostRuntime) -> Result<(), Fail> {
    let table = [
        (0, CompressionScheme::None),
        (1, CompressionScheme::LZ4),
        (2, CompressionScheme::ByteGrouping4LZ4),
        (99, CompressionScheme::Auto),
    ];
    for (number, scheme) in table {
        assert_eq!(rt; CompressionScheme::try_from(number)?, scheme);
    }
    for number in [3, 4] {
        assert_eq!(rt;
            CompressionScheme::try_from(number).err(),
            Some(StoreError::MalformedData(Reason::Scheme))
        );
    }
    assert_eq!(rt; CompressionScheme::default(), CompressionScheme::Auto);
    Ok(())
}

#[test]
fn scheme_texts(rt: HostRuntime) -> Result<(), Fail> {
    let table = [
        ("", CompressionScheme::Auto),
        ("auto", CompressionScheme::Auto),
        ("none", CompressionScheme::None),
        ("lz4", CompressionScheme::LZ4),
        ("bg4-lz4", CompressionScheme::ByteGrouping4LZ4),
        ("  LZ4 ", CompressionScheme::LZ4),
        ("BG4-LZ4", CompressionScheme::ByteGrouping4LZ4),
    ];
    for (encoding, scheme) in table {
        assert_eq!(rt; CompressionScheme::from_str(encoding)?, scheme);
    }
    assert_eq!(rt;
        CompressionScheme::from_str("zstd").err(),
        Some(StoreError::MalformedData(Reason::SchemeText))
    );
    let alloc = rt.alloc();
    assert_eq!(rt; CompressionScheme::LZ4.to_string(alloc)?.as_str(), "lz4");
    assert_eq!(rt; <&'static str>::from(CompressionScheme::None), "none");
    assert_eq!(rt; <&'static str>::from(&CompressionScheme::Auto), "auto");
    Ok(())
}

#[test]
fn schemes_over_bytes(rt: HostRuntime) -> Result<(), Fail> {
    let alloc = rt.alloc();
    let lz4 = Some(StoreError::CompressionError(1));
    assert!(rt; CompressionScheme::Auto.compress_from_slice(b"abc").is_ok());
    assert_eq!(rt;
        CompressionScheme::LZ4.compress_from_slice(b"abc").err(),
        lz4
    );
    assert!(rt;
        CompressionScheme::None
            .decompress_from_slice(b"abc")
            .is_ok()
    );
    assert_eq!(rt;
        CompressionScheme::Auto.decompress_from_slice(b"abc").err(),
        Some(StoreError::MalformedData(Reason::AutoScheme))
    );
    assert_eq!(rt;
        CompressionScheme::Auto.resolve_for_data(b"abc"),
        CompressionScheme::None
    );
    let mut sink = MemorySink::new(alloc);
    let mut source = SliceSource::new(b"abc");
    let count = CompressionScheme::None.decompress_from_reader(alloc, &mut source, &mut sink)?;
    assert!(rt; count == 3);
    assert_eq!(rt; sink.bytes(), b"abc".as_slice());
    Ok(())
}

#[test]
fn headers(rt: HostRuntime) -> Result<(), Fail> {
    let alloc = rt.alloc();
    let header = XorbChunkHeader::new(CompressionScheme::None, 66_051, 131_072);
    let encoded = [0x00, 0x03, 0x02, 0x01, 0x00, 0x00, 0x00, 0x02];
    let mut sink = MemorySink::new(alloc);
    write_chunk_header(&mut sink, &header)?;
    assert_eq!(rt; sink.bytes(), encoded.as_slice());
    let parsed = parse_chunk_header(encoded, 131_072)?;
    assert_eq!(rt; parsed, header);
    assert!(rt; parsed.get_compressed_length() == 66_051);
    assert!(rt; parsed.get_uncompressed_length() == 131_072);
    assert_eq!(rt;
        parse_chunk_header(encoded, 131_071).err(),
        Some(StoreError::MalformedData(Reason::PlainLength))
    );
    assert_eq!(rt;
        parse_chunk_header(*b"XETBLOB?", 131_072).err(),
        Some(StoreError::ChunkHeaderParse)
    );
    let empty = XorbChunkHeader::new(CompressionScheme::None, 0, 0);
    assert_eq!(rt; XorbChunkHeader::default(), empty);
    assert_eq!(rt;
        deserialize_chunk_header(&mut SliceSource::new(b""), 8).err(),
        Some(StoreError::UnexpectedEof)
    );
    Ok(())
}

#[test]
fn serialized_chunks(rt: HostRuntime) -> Result<(), Fail> {
    let alloc = rt.alloc();
    for scheme in [CompressionScheme::None, CompressionScheme::Auto] {
        let mut sink = MemorySink::new(alloc);
        assert!(rt; serialize_chunk(b"abc", &mut sink, scheme)? == 11);
        assert_eq!(rt;
            sink.bytes(),
            b"\x00\x03\x00\x00\x00\x03\x00\x00abc".as_slice()
        );
    }
    let mut sink = MemorySink::new(alloc);
    assert_eq!(rt;
        serialize_chunk(b"abc", &mut sink, CompressionScheme::LZ4).err(),
        Some(StoreError::CompressionError(1))
    );
    assert!(rt; sink.bytes().is_empty());
    Ok(())
}

#[test]
fn one_chunk(rt: HostRuntime) -> Result<(), Fail> {
    let alloc = rt.alloc();
    let whole = b"\x00\x04\x00\x00\x00\x04\x00\x00\x01\x02\x03\x04";
    let (bytes, stored, plain) = deserialize_chunk(alloc, &mut SliceSource::new(whole), 8)?;
    assert_eq!(rt; bytes.as_slice(), [1, 2, 3, 4].as_slice());
    assert!(rt; stored == 12 && plain == 4);
    let mut sink = MemorySink::new(alloc);
    let (stored, plain) = deserialize_chunk_to_writer(
        alloc,
        &mut SliceSource::new(whole),
        &mut sink,
        8,
    )?;
    assert_eq!(rt; sink.bytes(), [1, 2, 3, 4].as_slice());
    assert!(rt; stored == 12 && plain == 4);
    Ok(())
}

/// The error of reading these bytes as a chunk of at most eight bytes, and the number of bytes written.
fn refusal_of_chunk(alloc: Global, bytes: &[u8]) -> (Option<StoreError>, usize) {
    let mut sink = MemorySink::new(alloc);
    let mut source = SliceSource::new(bytes);
    let refusal = deserialize_chunk_to_writer(alloc, &mut source, &mut sink, 8).err();
    (refusal, sink.bytes().len())
}

#[test]
fn malformed_chunks(rt: HostRuntime) -> Result<(), Fail> {
    let alloc = rt.alloc();
    let short = refusal_of_chunk(alloc, b"\x00\x0a\x00\x00\x00\x04\x00\x00abcd");
    assert_eq!(rt; short, (Some(StoreError::UnexpectedEof), 0));
    let unequal = refusal_of_chunk(alloc, b"\x00\x0a\x00\x00\x00\x04\x00\x00abcdefghij");
    assert_eq!(rt;
        unequal,
        (Some(StoreError::MalformedData(Reason::BodyLength)), 0)
    );
    let auto = refusal_of_chunk(alloc, b"\x00\x04\x00\x00\x63\x04\x00\x00abcd");
    assert_eq!(rt;
        auto,
        (Some(StoreError::MalformedData(Reason::AutoScheme)), 0)
    );
    let lz4 = refusal_of_chunk(alloc, b"\x00\x04\x00\x00\x01\x04\x00\x00abcd");
    assert_eq!(rt; lz4, (Some(StoreError::CompressionError(1)), 0));
    Ok(())
}

/// A stream of `count` chunks of 1,000 bytes each.
fn stream_of(alloc: Global, count: usize) -> Result<Vec<u8>, AllocError> {
    let mut bytes = Vec::new(alloc);
    for _ in 0..count {
        bytes.extend_from_slice(b"\x00\xe8\x03\x00\x00\xe8\x03\x00")?;
        let len = bytes.len();
        if len < 1 << 20 {
            bytes.resize(len + 1_000, 7)?;
        }
    }
    Ok(bytes)
}

/// The first `len` bytes, or all if there are fewer.
fn prefix(bytes: &[u8], len: usize) -> &[u8] {
    &bytes[..bytes.len().min(len)]
}

#[test]
fn streams(rt: HostRuntime) -> Result<(), Fail> {
    let alloc = rt.alloc();
    let bytes = stream_of(alloc, 3)?;
    assert!(rt; bytes.len() == 3_024);
    let (plain, places) = deserialize_chunks(
        alloc,
        &mut SliceSource::new(prefix(&bytes, 1_008)),
        1_000,
    )?;
    assert_eq!(rt; plain.as_slice(), &bytes[8..1_008]);
    assert_eq!(rt; places.as_slice(), [0, 1_000].as_slice());
    let mut sink = MemorySink::new(alloc);
    let mut source = SliceSource::new(&bytes);
    let (stored, places) = deserialize_chunks_to_writer(alloc, &mut source, &mut sink, 1_000)?;
    assert!(rt; stored == 3_024 && sink.bytes().len() == 3_000);
    assert_eq!(rt; places.as_slice(), [0, 1_000, 2_000, 3_000].as_slice());
    let (plain, places) = deserialize_chunks(alloc, &mut SliceSource::new(b""), 1_000)?;
    assert!(rt; plain.is_empty());
    assert_eq!(rt; places.as_slice(), [0].as_slice());
    for cut in [1_010, 1_026] {
        let mut source = SliceSource::new(prefix(&bytes, cut));
        assert_eq!(rt;
            deserialize_chunks(alloc, &mut source, 1_000).err(),
            Some(StoreError::UnexpectedEof)
        );
    }
    Ok(())
}

/// What a stream decodes to: the number of bytes fed, the chunk offsets, and the uncompressed bytes.
pub(crate) type Decoded = (usize, Vec<u32>, Vec<u8>);

/// Decodes these bytes, fed in parts of `size` bytes, as chunks of at most `max` bytes, which is below 2^23.
pub(crate) fn decoded(
    alloc: Global,
    bytes: &[u8],
    size: usize,
    max: u32,
) -> Result<Decoded, StoreError>
    requires { max < 2 ^ 23 }
{
    let mut sink = MemorySink::new(alloc);
    let mut decoder = ChunkDecoder::new(alloc, max);
    let mut at = 0;
    'pieces: while at < bytes.len() {
        let end = bytes.len().min(at.saturating_add(size.max(1)));
        decoder.feed(&bytes[at..end], &mut sink)?;
        decoder.feed(b"", &mut sink)?;
        at = end;
    }
    let (stored, places) = decoder.finish()?;
    Ok((stored, places, sink.into_bytes()))
}

#[test]
fn pieces(rt: HostRuntime) -> Result<(), Fail> {
    let alloc = rt.alloc();
    let bytes = stream_of(alloc, 3)?;
    assert!(rt; bytes.len() == 3_024);
    for size in [1, 7, 8, 9, 1_008, 1_500, 4_000] {
        let (stored, places, _) = decoded(alloc, prefix(&bytes, 1_008), size, 1_000)?;
        assert!(rt; stored == 1_008);
        assert_eq!(rt; places.as_slice(), [0, 1_000].as_slice());
        let (stored, _, _) = decoded(alloc, &bytes, size, 1_000)?;
        assert!(rt; stored == 3_024);
        for cut in [1_010, 1_026] {
            assert_eq!(rt;
                decoded(alloc, prefix(&bytes, cut), size, 1_000).err(),
                Some(StoreError::UnexpectedEof)
            );
        }
        assert_eq!(rt;
            decoded(alloc, b"\x00\x00\x00\x00\x03\x00\x00\x00", size, 1_000).err(),
            Some(StoreError::MalformedData(Reason::Scheme))
        );
    }
    Ok(())
}

#[test]
fn outside_fails(rt: HostRuntime) -> Result<(), Fail> {
    let alloc = rt.alloc();
    let bytes = stream_of(alloc, 3)?;
    assert!(rt; bytes.len() == 3_024);
    let mut sink = FailingSink::new(alloc, 1_500);
    let mut source = SliceSource::new(&bytes);
    assert_eq!(rt;
        deserialize_chunks_to_writer(alloc, &mut source, &mut sink, 1_000).err(),
        Some(StoreError::Io(Place::Output))
    );
    assert!(rt; sink.bytes().len() == 1_500);
    let mut sink = MemorySink::new(alloc);
    let mut source = FailingSource::new(&bytes, 2_000);
    assert_eq!(rt;
        deserialize_chunks_to_writer(alloc, &mut source, &mut sink, 1_000).err(),
        Some(StoreError::Io(Place::Input))
    );
    assert!(rt; sink.bytes().len() == 1_000);
    let mut source = FailingSource::new(&bytes, 500);
    assert_eq!(rt;
        deserialize_chunk(alloc, &mut source, 1_000).err(),
        Some(StoreError::Io(Place::Input))
    );
    Ok(())
}

#[test]
fn segments(rt: HostRuntime) -> Result<(), Fail> {
    let alloc = rt.alloc();
    let mut all = Vec::from_slice(alloc, &[0; 3])?;
    let mut indices = Vec::from_slice(alloc, &[0, 3])?;
    append_chunk_segment(&mut all, &mut indices, &[0; 2], &[0, 2])?;
    assert!(rt; all.len() == 5);
    assert_eq!(rt; indices.as_slice(), [0, 3, 5].as_slice());
    let mut all = Vec::new(alloc);
    let mut indices = Vec::new(alloc);
    append_chunk_segment(&mut all, &mut indices, &[0; 25], &[0, 10, 25])?;
    append_chunk_segment(&mut all, &mut indices, &[0; 20], &[0, 8, 20])?;
    append_chunk_segment(&mut all, &mut indices, &[0; 5], &[0, 5])?;
    assert_eq!(rt; indices.as_slice(), [0, 10, 25, 33, 45, 50].as_slice());
    Ok(())
}
