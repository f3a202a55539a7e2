//! Which xorb a store in memory knows by a hash, and which run a query finds.

ghost use Rattle.std.specs.Prelude.{◌≡◌, ◌<◌, ◌≤◌, ◌+◌, ◌^◌, ℕ, List, Option, Some, None, IfSome, drop, length, map, slice_get, take, true, sum};
ghost use Rattle.xet_dedup_tests.specs.Listing.{lengths_of, listing};
ghost use Rattle.xet_dedup_queries.specs.Interface.{IsFoundRun};
ghost use Rattle.xet_dedup_tests.specs.declared.known.KnownXorb.{KnownXorb};
ghost use Rattle.xet_hash.specs.Merkle.{total_len};

use crate::known::KnownXorb;
use xet_hash::MerkleHash;
use xet_shard_format::FileDataSequenceEntry;

/// The index of the first of these xorbs that has a hash.
pub(crate) fn index_of(xorbs: &[KnownXorb], hash: &MerkleHash) -> Option<usize>
    ensures some { IfSome result (λ at. (x : KnownXorb) × (slice_get xorbs.now at ≡ Some x) × (listing xorbs.now hash.now ≡ Some (lengths_of x))) }
    ensures none { result ≡ None → listing xorbs.now hash.now ≡ None }
{
    for at in 0..xorbs.len() {
        if xorbs[at].hash == *hash {
            return Some(at);
        }
    }
    None
}

/// Whether no earlier xorb has the hash of the one at an index.
fn is_first(xorbs: &[KnownXorb], at: usize) -> bool
    requires { at < length xorbs.now }
    ensures { result ≡ true → (x : KnownXorb) → slice_get xorbs.now at ≡ Some x → listing xorbs.now x.hash ≡ Some (lengths_of x) }
{
    match index_of(xorbs, &xorbs[at].hash) {
        Some(first) => first == at,
        None => false,
    }
}

/// Whether two lists of chunks have the same lengths.
pub(crate) fn have_same_lengths(first: &[(MerkleHash, u64)], second: &[(MerkleHash, u64)]) -> bool
    ensures { result ≡ true → map (λ m. m.1) first.now ≡ map (λ m. m.1) second.now }
{
    match (first, second) {
        ([], []) => true,
        ([x, xs @ ..], [y, ys @ ..]) => x.1 == y.1 && have_same_lengths(xs, ys),
        _ => false,
    }
}

/// The run that a query for these chunk hashes finds in the first xorb that has the first of them: its number of chunks,
/// the run, and whether it is external. A xorb is passed over if an earlier one has its hash. Does not allocate.
pub(crate) fn find_run(
    xorbs: &[KnownXorb],
    hashes: &[MerkleHash],
) -> Option<(usize, FileDataSequenceEntry, bool)>
    ensures { IfSome result (λ r. IsFoundRun (listing xorbs.now) (λ _ _. Unit {0}) hashes.now r.0 r.1) }
{
    for at in 0..xorbs.len() {
        let xorb = &xorbs[at];
        if is_first(xorbs, at) {
            if let Some((count, run)) = run_in(xorb, hashes) {
                return Some((count, run, xorb.is_external));
            }
        }
    }
    None
}

/// The run of a xorb from the first chunk that has the first of these hashes, as far as the hashes agree.
fn run_in(xorb: &KnownXorb, hashes: &[MerkleHash]) -> Option<(usize, FileDataSequenceEntry)>
    ensures { (known : List ℕ → Option (List ℕ)) → known xorb.now.hash ≡ Some (lengths_of xorb.now) → IfSome result (λ r. IsFoundRun known (λ _ _. Unit {0}) hashes.now r.0 r.1) }
{
    let leaves = xorb.leaves.as_slice();
    let start = start_of(leaves, hashes)?;
    let count = agreeing(&leaves[start..], hashes);
    if count == 0 {
        return None;
    }
    let bytes = bytes_of(&leaves[start..start + count]);
    let end = start + count;
    Some((
        count,
        FileDataSequenceEntry::new(xorb.hash, bytes, start as u32, end as u32),
    ))
}

/// The index of the first chunk that has the first of these hashes.
fn start_of(leaves: &[(MerkleHash, u64)], hashes: &[MerkleHash]) -> Option<usize>
    ensures { IfSome result (λ at. at < length leaves.now) }
{
    let first = hashes.first()?;
    for at in 0..leaves.len() {
        if leaves[at].0 == *first {
            return Some(at);
        }
    }
    None
}

/// How many of these chunks, from the first on, have the hashes at their indices.
fn agreeing(leaves: &[(MerkleHash, u64)], hashes: &[MerkleHash]) -> usize
    ensures few { (result ≤ length leaves.now) × (result ≤ length hashes.now) }
{
    let mut count = 0;
    while count < leaves.len() && count < hashes.len() && leaves[count].0 == hashes[count] {
        count += 1;
    }
    count
}

/// The number of bytes of these chunks.
fn bytes_of(leaves: &[(MerkleHash, u64)]) -> u32
    requires { total_len leaves.now < 2 ^ 32 }
    ensures { result ≡ sum (map (λ m. m.1) leaves.now) }
{
    let bytes: u64 = leaves.iter().map(|leaf| leaf.1).sum();
    bytes as u32
}
