//! Sample xorbs.

ghost use Rattle.std.specs.Prelude.{IfOk};
ghost use Rattle.xet_xorb.specs.Raw.{IsRaw};
ghost use Rattle.xet_xorb_samples.specs.Samples.{AreBoundaries};

use rand_core::SeedableRng;
use rand_pcg::Pcg64;
use std::alloc::Global;
use std::test::Fail;
use xet_base::Items;
use xet_hash::{MerkleHash, Place, StoreError};
use xet_io::{FailingSink, MemorySink};
use xet_xorb::*;
use xet_xorb_samples::*;

const SCHEME: CompressionScheme = CompressionScheme::Auto;

/// A raw xorb of three chunks of ten bytes.
fn three_chunks(alloc: Global) -> Result<RawXorbData, StoreError>
    ensures { IfOk result IsRaw }
{
    build_raw_xorb(alloc, 3, ChunkSize::Fixed(10), &mut Pcg64::seed_from_u64(7))
}

/// A built xorb with one bit flipped at this offset, if it is within the bytes.
fn with_change(built: SerializedXorbObject, place: usize) -> SerializedXorbObject {
    let SerializedXorbObject {
        serialized_data,
        hash,
        raw_num_bytes,
        num_chunks,
        footer_start,
    } = built;
    let mut bytes = serialized_data.into_vec();
    if let Some(byte) = bytes.get_mut(place) {
        *byte ^= 1;
    }
    SerializedXorbObject {
        serialized_data: Items::from_vec(bytes),
        hash,
        raw_num_bytes,
        num_chunks,
        footer_start,
    }
}

/// The encoding, with a footer, of a copy of this raw xorb.
fn built_of_copy(alloc: Global, raw: &RawXorbData) -> Result<SerializedXorbObject, StoreError>
    requires { IsRaw raw.now }
{
    SerializedXorbObject::from_xorb(alloc, raw.clone(alloc)?, true)
}

/// Whether this raw xorb, built, is verified, as it is and after one bit was flipped.
fn is_verified(alloc: Global, raw: &RawXorbData, place: usize) -> Result<(bool, bool), StoreError>
    requires { IsRaw raw.now }
{
    let built = built_of_copy(alloc, raw)?;
    let same = verify_serialized_xorb_object(alloc, raw, SCHEME, &built)?;
    let changed = with_change(built, place);
    let still = verify_serialized_xorb_object(alloc, raw, SCHEME, &changed)?;
    Ok((same, still))
}

/// `is_verified` of three chunks.
fn verified(alloc: Global, place: usize) -> Result<(bool, bool), StoreError> {
    let raw = three_chunks(alloc)?;
    is_verified(alloc, &raw, place)
}

#[test]
fn built_xorbs_are_verified(rt: HostRuntime) -> Result<(), Fail> {
    let alloc = rt.alloc();
    for place in [0, 20, 60, 262] {
        assert_eq!(rt; verified(alloc, place)?, (true, false));
    }
    Ok(())
}

/// The uncompressed length, the number of chunks, the offset of the footer and the length of an encoding, and
/// whether it has the bytes and the hash of another.
type Built = (u64, usize, Option<u64>, usize, bool);

fn compared(checked: &SerializedXorbObject, built: &SerializedXorbObject) -> Built {
    (
        checked.raw_num_bytes,
        checked.num_chunks,
        checked.footer_start,
        checked.serialized_data.as_slice().len(),
        checked.serialized_data == built.serialized_data && checked.hash == built.hash,
    )
}

/// What is seen of three chunks that were built and verified, compared with those that were only built.
fn built_and_verified(alloc: Global) -> Result<Built, StoreError> {
    let raw = three_chunks(alloc)?;
    let built = built_of_copy(alloc, &raw);
    let checked = build_and_verify_xorb_object(alloc, raw, SCHEME);
    let built = built?;
    let checked = checked?;
    Ok(compared(&checked, &built))
}

#[test]
fn three_chunks_are_built(rt: HostRuntime) -> Result<(), Fail> {
    assert_eq!(rt;
        built_and_verified(rt.alloc())?,
        (30, 3, Some(54), 270, true)
    );
    Ok(())
}

/// A xorb, its stored chunks, their uncompressed bytes, and the hash and the end of each.
type Sample = (XorbObject, Vec<u8>, Vec<u8>, Vec<(MerkleHash, u32)>);

/// A sample of three chunks of ten bytes, drawn from this seed.
fn sample(alloc: Global, seed: u64) -> Result<Sample, StoreError>
    ensures boundaries { IfOk result (λ made. AreBoundaries made.2.items made.3.items) }
{
    let mut rng = Pcg64::seed_from_u64(seed);
    build_xorb_object(alloc, 3, ChunkSize::Fixed(10), SCHEME, &mut rng)
}

/// Whether chunks end at these offsets.
fn end_at(boundaries: &[(MerkleHash, u32)], ends: &[u32]) -> bool {
    for (cut, end) in boundaries.iter().zip(ends.iter()) {
        if cut.1 != *end {
            return false;
        }
    }
    boundaries.len() == ends.len()
}

/// The stored and the uncompressed length of three chunks, the number of chunks and the length of their
/// footer, and whether the chunks end after 10, 20 and 30 bytes.
fn sampled(alloc: Global) -> Result<(usize, usize, u32, u32, bool), StoreError> {
    let (object, stored, plain, boundaries) = sample(alloc, 8)?;
    Ok((
        stored.len(),
        plain.len(),
        object.info.num_chunks,
        object.info_length,
        end_at(&boundaries, &[10, 20, 30]),
    ))
}

#[test]
fn objects_are_sampled(rt: HostRuntime) -> Result<(), Fail> {
    assert_eq!(rt; sampled(rt.alloc())?, (54, 30, 3, 212, true));
    Ok(())
}

/// The encoding of a sample that the reference encoder makes in memory.
fn in_memory(
    alloc: Global,
    hash: &MerkleHash,
    plain: &[u8],
    boundaries: &[(MerkleHash, u32)],
) -> Result<Items<u8>, StoreError>
    requires { AreBoundaries plain.now boundaries.now }
{
    let bytes = Vec::from_slice(alloc, plain)?;
    let places = Vec::from_slice(alloc, boundaries)?;
    let whole = serialized_xorb_object_from_components(alloc, hash, bytes, places, SCHEME)?;
    Ok(whole.serialized_data)
}

/// Whether the reference encoder returns this footer, writes these stored chunks first, and writes the same
/// as in memory; the number of bytes written, and the offset of the footer.
fn written_like(
    alloc: Global,
    object: &XorbObject,
    stored: &[u8],
    plain: &[u8],
    boundaries: &[(MerkleHash, u32)],
) -> Result<(bool, bool, bool, usize, u64), StoreError>
    requires { AreBoundaries plain.now boundaries.now }
{
    let hash = object.info.xorb_hash;
    let whole = in_memory(alloc, &hash, plain, boundaries)?;
    let mut sink = MemorySink::new(alloc);
    let (made, count, start) = serialize_xorb_to_stream_reference(
        alloc, &mut sink, &hash, plain, boundaries, SCHEME,
    )?;
    Ok((
        made == *object,
        sink.bytes().starts_with(stored),
        whole.as_slice() == sink.bytes(),
        count,
        start,
    ))
}

/// `written_like` of a sample.
fn written(alloc: Global) -> Result<(bool, bool, bool, usize, u64), StoreError> {
    let (object, stored, plain, boundaries) = sample(alloc, 9)?;
    written_like(alloc, &object, &stored, &plain, &boundaries)
}

#[test]
fn samples_are_written(rt: HostRuntime) -> Result<(), Fail> {
    assert_eq!(rt; written(rt.alloc())?, (true, true, true, 270, 54));
    Ok(())
}

/// The error of writing to a sink that fails after `fail_at` bytes, and the number of bytes written.
fn refused_by_sink(alloc: Global, fail_at: u64) -> (Option<StoreError>, usize) {
    let mut sink = FailingSink::new(alloc, fail_at);
    let hash = MerkleHash::default();
    let boundaries = [(hash, 2), (hash, 3)];
    let written = serialize_xorb_to_stream_reference(
        alloc,
        &mut sink,
        &hash,
        b"abc",
        &boundaries,
        SCHEME,
    );
    (written.err(), sink.bytes().len())
}

#[test]
fn sinks_fail(rt: HostRuntime) -> Result<(), Fail> {
    for (fail_at, bytes) in [(0, 0), (9, 9), (100, 100)] {
        assert_eq!(rt;
            refused_by_sink(rt.alloc(), fail_at),
            (Some(StoreError::Io(Place::Output)), bytes)
        );
    }
    Ok(())
}

/// The errors of a sample and of the two forms of the reference encoder, under this scheme.
fn refused_encodings(alloc: Global, scheme: CompressionScheme) -> [Option<StoreError>; 3] {
    let mut rng = Pcg64::seed_from_u64(10);
    let hash = MerkleHash::default();
    let mut sink = MemorySink::new(alloc);
    [
        build_xorb_object(alloc, 1, ChunkSize::Fixed(10), scheme, &mut rng).err(),
        serialize_xorb_to_stream_reference(alloc, &mut sink, &hash, b"", &[], scheme).err(),
        serialized_xorb_object_from_components(
            alloc,
            &hash,
            Vec::new(alloc),
            Vec::new(alloc),
            scheme,
        ).err(),
    ]
}

/// The error of verifying a raw xorb that was built, under this scheme.
fn refused_verification(
    alloc: Global,
    raw: &RawXorbData,
    scheme: CompressionScheme,
) -> Result<Option<StoreError>, StoreError>
    requires { IsRaw raw.now }
{
    let built = built_of_copy(alloc, raw)?;
    Ok(verify_serialized_xorb_object(alloc, raw, scheme, &built).err())
}

/// The errors of the two calls that verify, under this scheme.
fn refused_verifications(
    alloc: Global,
    scheme: CompressionScheme,
) -> Result<[Option<StoreError>; 2], StoreError> {
    let raw = three_chunks(alloc)?;
    let verified = refused_verification(alloc, &raw, scheme);
    let built = build_and_verify_xorb_object(alloc, raw, scheme).err();
    Ok([verified?, built])
}

#[test]
fn schemes_are_refused(rt: HostRuntime) -> Result<(), Fail> {
    let refused = Some(StoreError::CompressionError(1));
    let encodings = refused_encodings(rt.alloc(), CompressionScheme::LZ4);
    assert_eq!(rt; encodings, [refused; 3]);
    let verifications = refused_verifications(rt.alloc(), CompressionScheme::LZ4)?;
    assert_eq!(rt; verifications, [refused; 2]);
    Ok(())
}

/// Whether one seed gives the same bytes twice, and another seed gives others.
fn drawn(alloc: Global) -> Result<(bool, bool), StoreError> {
    let one = gen_random_bytes(alloc, 100, &mut Pcg64::seed_from_u64(11))?;
    let again = gen_random_bytes(alloc, 100, &mut Pcg64::seed_from_u64(11))?;
    let other = gen_random_bytes(alloc, 100, &mut Pcg64::seed_from_u64(12))?;
    Ok((one == again, one != other))
}

/// The uncompressed bytes of three chunks.
fn plain_bytes(alloc: Global) -> Result<Vec<u8>, StoreError> {
    let raw = three_chunks(alloc)?;
    raw_xorb_to_vec(alloc, &raw)
}

/// Whether the first two chunks of a sample differ.
fn chunks_differ(alloc: Global) -> Result<bool, StoreError> {
    let plain = plain_bytes(alloc)?;
    let (first, rest) = plain.as_slice().split_at(plain.len().min(10));
    Ok(!first.is_empty() && !rest.starts_with(first))
}

#[test]
fn bytes_are_drawn(rt: HostRuntime) -> Result<(), Fail> {
    let alloc = rt.alloc();
    assert_eq!(rt; drawn(alloc)?, (true, true));
    assert!(rt; chunks_differ(alloc)?);
    Ok(())
}

#[test]
fn sizes_are_shown(rt: HostRuntime) -> Result<(), Fail> {
    for (size, shown) in [
        (ChunkSize::Random(1, 20), "[1, 20]"),
        (ChunkSize::Fixed(7), "7"),
    ] {
        assert_eq!(rt; format!(in rt.alloc(); "{size}")?.as_str(), shown);
    }
    Ok(())
}

#[test]
fn object_as_json(rt: HostRuntime) -> Result<(), Fail> {
    let alloc = rt.alloc();
    assert_eq!(rt;
        serde_json::to_string(alloc, &XorbObject::default(alloc))?.as_str(),
        r#"{"info":{"ident":[88,69,84,66,76,79,66],"version":1,"cashash":[0,0,0,0],"ident_hash_section":[88,66,76,66,72,83,72],"hashes_version":0,"chunk_hashes":[],"ident_boundary_section":[88,66,76,66,66,78,68],"boundaries_version":1,"chunk_boundary_offsets":[],"unpacked_chunk_offsets":[],"num_chunks":0,"hashes_section_offset_from_end":52,"boundary_section_offset_from_end":40},"info_length":92}"#
    );
    Ok(())
}
