//! Runs: consecutive chunks of a xorb whose hashes are the first of a query.

ghost use Rattle.std.specs.Prelude.{◌≡◌, ◌<◌, ◌≤◌, ◌^◌, length, map, take};
ghost use Rattle.xet_shard.specs.Queries.{kept_hash};
ghost use Rattle.xet_shard_format.specs.Records.{IsXorb, chunk_bytes};
ghost use Rattle.xet_shard.specs.Runs.{agreeing, digests, run_at};

use xet_hash::{HMACKey, MerkleHash};
use xet_shard_format::{FileDataSequenceEntry, MDBXorbInfo, XorbChunkSequenceEntry};

/// A chunk hash as a shard stores it: keyed, if the shard's key is not zero.
#[tactic(auto, unfolding(crate::specs::Queries::kept_hash))]
pub fn kept_hash(key: &HMACKey, hash: &MerkleHash) -> MerkleHash
    ensures { result ≡ kept_hash key.now hash.now }
{
    if *key == HMACKey::default() {
        *hash
    } else {
        hash.hmac(*key)
    }
}

/// The run of a query at index `place` of a xorb: how many of its first hashes are those of the chunks from
/// there on, and the segment of these chunks. None if the first hash differs. The xorb's chunk hashes are
/// stored under `key`. Only the hashes up to the first that differs are keyed.
pub(crate) fn run_at(
    key: &HMACKey,
    query: &[MerkleHash],
    block: &MDBXorbInfo,
    place: u32,
) -> Option<(usize, FileDataSequenceEntry)>
    requires form { IsXorb block.now }
    requires within { place ≤ length block.now.chunks }
    ensures { result ≡ run_at (map (kept_hash key.now) query.now) block.now place }
{
    let _entries = block.metadata.num_entries;
    let _bytes = block.metadata.num_bytes_in_xorb;
    let (count, bytes) = run_length(key, query, &block.chunks.as_slice()[place as usize..]);
    if count == 0 {
        return None;
    }
    let end = place + count as u32;
    Some((
        count,
        FileDataSequenceEntry::new(block.hash(), bytes, place, end),
    ))
}

/// How many first hashes of the query are those of the first chunks, and the uncompressed bytes of these
/// chunks.
fn run_length(
    key: &HMACKey,
    query: &[MerkleHash],
    chunks: &[XorbChunkSequenceEntry],
) -> (usize, u32)
    requires { chunk_bytes chunks.now < 2 ^ 32 }
    ensures count { result.0 ≡ agreeing (map (kept_hash key.now) query.now) (digests chunks.now) }
    ensures bytes { result.1 ≡ chunk_bytes (take (agreeing (map (kept_hash key.now) query.now) (digests chunks.now)) chunks.now) }
    ensures within { result.0 ≤ length chunks.now }
{
    let mut count = 0;
    let mut bytes = 0;
    while count < query.len()
        && count < chunks.len()
        && kept_hash(key, &query[count]) == chunks[count].chunk_hash
    {
        bytes += chunks[count].unpacked_segment_bytes;
        count += 1;
    }
    (count, bytes)
}
