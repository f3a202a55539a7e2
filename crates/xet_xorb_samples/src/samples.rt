//! Xorbs of random chunks, for tests.

ghost use Rattle.std.specs.Prelude.{◌≡◌, ◌⊎◌, [], ◌∷◌, ℕ, List, Err, IfErr, IfOk, IsOkUnless, Some, length, map};
ghost use Rattle.rand_core.specs.Stream.{fill_bytes};
ghost use Rattle.xet_hash.specs.declared.error.StoreError.{StoreError};
ghost use Rattle.xet_hash.specs.declared.error.StoreError.TheVariants.{OutOfMemory};
ghost use Rattle.xet_xorb_chunk.specs.Chunks.{chunk_of};
ghost use Rattle.xet_xorb_chunk.specs.Scheme.{compressed};
ghost use Rattle.xet_xorb.specs.Raw.{IsRaw, raw_of};
ghost use Rattle.xet_xorb_samples.specs.Samples.{AreBoundaries, AreSamples, DrawsSize, FitXorb, HasSize, IsOrdered, IsSampleOf, max_size, size_text};
ghost use Rattle.xet_xorb_samples.specs.internal.Samples.{AreSampleChunks, object_of_boundaries};

use crate::reference::boundary_leaves;
use bytes::Bytes;
use rand::{Rng, RngExt};
use std::alloc::Global;
use std::fmt;
use xet_hash::{MerkleHash, StoreError, compute_data_hash, xorb_hash};
use xet_io::MemorySink;
use xet_xorb::{RawXorbData, XorbObject, new_footer};
use xet_xorb_chunk::{Chunk, CompressionScheme, XORB_CHUNK_HEADER_LENGTH, serialize_chunk};

/// The lengths of random chunks, in bytes.
#[derive(Clone, Copy, PartialEq, Eq, Debug)]
pub enum ChunkSize {
    /// From the first number to the second, both included.
    Random(u32, u32),
    /// Exactly this number.
    Fixed(u32),
}

impl ChunkSize {
    /// The maximum length.
    fn max(self) -> u32
        ensures { result ≡ max_size self }
    {
        match self {
            ChunkSize::Random(_, max) => max,
            ChunkSize::Fixed(size) => size,
        }
    }

    /// Draws the length of one chunk.
    fn draw<G: Rng>(self, rng: &mut G) -> u32
        requires { IsOrdered self }
        ensures size { HasSize self result }
        ensures drawn { DrawsSize self (G.stream rng.old) result (G.stream rng.new) }
    {
        match self {
            ChunkSize::Random(min, max) => rng.random_range(min..=max),
            ChunkSize::Fixed(size) => size,
        }
    }
}

impl fmt::Display for ChunkSize {
    ghost output = { λ size. Some (size_text size) };

    fn fmt<W: fmt::Write>(&self, f: &mut fmt::Formatter<W>) -> fmt::Result {
        match self {
            ChunkSize::Random(min, max) => write!(f, "[{min}, {max}]"),
            ChunkSize::Fixed(size) => write!(f, "{size}"),
        }
    }
}

/// The next `size` random bytes of the generator. The only error is `OutOfMemory`.
pub fn gen_random_bytes<G: Rng>(
    alloc: Global,
    size: u32,
    rng: &mut G,
) -> Result<Vec<u8>, StoreError>
    ensures size { IfOk result (λ bytes. length bytes.items ≡ size) }
    ensures drawn { IfOk result (λ bytes. (bytes.items, G.stream rng.new) ≡ fill_bytes size (G.stream rng.old)) }
    ensures memory { IsOkUnless result StoreError.OutOfMemory }
{
    let mut bytes = vec![in alloc; 0; size as usize]?;
    rng.fill_bytes(&mut bytes);
    Ok(bytes)
}

/// `num_chunks` random chunks. The only error is `OutOfMemory`.
fn random_chunks<G: Rng>(
    alloc: Global,
    num_chunks: u32,
    size: ChunkSize,
    rng: &mut G,
) -> Result<Vec<Chunk>, StoreError>
    requires { FitXorb num_chunks size }
    ensures made { IfOk result (λ chunks. AreSampleChunks num_chunks size (G.stream rng.old) chunks.items (G.stream rng.new)) }
    ensures memory { IsOkUnless result StoreError.OutOfMemory }
{
    let mut chunks = Vec::with_capacity(alloc, num_chunks as usize)?;
    'draws: for _ in 0..num_chunks {
        let bytes = gen_random_bytes(alloc, size.draw(rng), rng)?;
        chunks.push(Chunk::new(Bytes::from_vec(bytes)?))?;
    }
    Ok(chunks)
}

/// A raw xorb of random chunks, with a file that begins at the first chunk. For each chunk in turn its length
/// and then its bytes are drawn, so equal generators give equal xorbs. The only error is `OutOfMemory`.
pub fn build_raw_xorb<G: Rng>(
    alloc: Global,
    num_chunks: u32,
    size: ChunkSize,
    rng: &mut G,
) -> Result<RawXorbData, StoreError>
    requires { FitXorb num_chunks size }
    ensures made { IfOk result (λ raw. (chunks : List (List ℕ)) × AreSamples num_chunks size (G.stream rng.old) chunks (G.stream rng.new) × (raw ≡ raw_of (map chunk_of chunks) (0 ∷ []))) }
    ensures raw { IfOk result IsRaw }
    ensures memory { IsOkUnless result StoreError.OutOfMemory }
{
    let chunks = random_chunks(alloc, num_chunks, size, rng)?;
    let boundaries = vec![in alloc; 0]?;
    RawXorbData::from_chunks(alloc, &chunks, boundaries)
}

/// A xorb of random chunks, drawn as in `build_raw_xorb`. Returns its footer with its length, the stored
/// chunks, their uncompressed bytes, and the hash of each chunk with its end offset among the uncompressed
/// bytes.
///
/// The schemes that compress fail with `CompressionError` of their number. The other error is `OutOfMemory`.
pub fn build_xorb_object<G: Rng>(
    alloc: Global,
    num_chunks: u32,
    size: ChunkSize,
    scheme: CompressionScheme,
    rng: &mut G,
) -> Result<(XorbObject, Vec<u8>, Vec<u8>, Vec<(MerkleHash, u32)>), StoreError>
    requires { FitXorb num_chunks size }
    ensures made { IfOk result (λ made. IsSampleOf num_chunks size (G.stream rng.old) (G.stream rng.new) made.0 made.1.items made.2.items made.3.items) }
    ensures boundaries { IfOk result (λ made. AreBoundaries made.2.items made.3.items) }
    ensures scheme { (e : StoreError) → compressed scheme [] ≡ Err e → result ≡ Err e }
    ensures errors { IfErr result (λ e. (compressed scheme [] ≡ Err e) ⊎ (e ≡ OutOfMemory)) }
{
    scheme.compress_from_slice(&[])?;
    let room = num_chunks as usize * size.max() as usize;
    let header_bytes = num_chunks as usize * XORB_CHUNK_HEADER_LENGTH;
    let mut stored = MemorySink::from_vec(Vec::with_capacity(alloc, room + header_bytes)?);
    let mut plain = Vec::with_capacity(alloc, room)?;
    let mut boundaries = Vec::with_capacity(alloc, num_chunks as usize)?;
    'draws: for _ in 0..num_chunks {
        let bytes = gen_random_bytes(alloc, size.draw(rng), rng)?;
        serialize_chunk(&bytes, &mut stored, scheme)?;
        plain.extend_from_slice(&bytes)?;
        boundaries.push((compute_data_hash(&bytes), plain.len() as u32))?;
    }
    let object = boundary_object(alloc, &boundaries)?;
    Ok((object, stored.into_bytes(), plain, boundaries))
}

/// The footer, with its length, of the xorb with these chunks, given by their hashes and end offsets. Its
/// hash is the one that these give. The only error is `OutOfMemory`.
fn boundary_object(
    alloc: Global,
    boundaries: &[(MerkleHash, u32)],
) -> Result<XorbObject, StoreError>
    requires { (bytes : List ℕ) × AreBoundaries bytes boundaries.now }
    ensures object { IfOk result (λ object. object ≡ object_of_boundaries boundaries.now) }
    ensures memory { IsOkUnless result StoreError.OutOfMemory }
{
    let leaves = boundary_leaves(alloc, boundaries)?;
    let hash = xorb_hash(alloc, &leaves)?;
    let info = new_footer(alloc, &hash, &leaves, [0; 16])?;
    Ok(XorbObject::from_info(info))
}
