//! Places where a long file may be split into parts, which are then chunked at the same time.

ghost use Rattle.std.specs.Prelude.{◌≡◌, ◌≤◌, ◌<◌, ◌+◌, ◌-◌, ◌*◌, ◌^◌, ◌⊎◌, ◌++◌, ◌∷◌, [], ℕ, List, true, length, drop, All, AllPairs, IfErr, IfOk, IfSome, IsErrOf, OnOk, filter_map};
ghost use Rattle.xet_hash.specs.declared.error.Place.TheVariants.{Input};
ghost use Rattle.xet_hash.specs.declared.error.StoreError.TheVariants.{Io, OutOfMemory, UnexpectedEof};
ghost use Rattle.xet_io.specs.Frame.{ReadFrom};
ghost use Rattle.xet_cut.specs.Limits.{with_minimum};
ghost use Rattle.xet_cut.specs.Streams.{boundary_in};
ghost use Rattle.xet_cut.specs.Partitions.{AreWithin, is_medium, is_scanned, part_at, part_in, partitions, places, places_from};

use crate::boundary::boundary_from;
use crate::limits::Limits;
use std::alloc::Global;
use xet_codec::read_exact;
use xet_hash::StoreError;
use xet_io::ReadAt;

/// Finds where a file of `size` bytes may be split into parts that are chunked on their own: the offset of each part. In
/// the chunks of the whole, a chunk probably ends there too. The first part begins at 0. `scan` bytes are read at each
/// multiple of `min_partition` that more than `min_partition` and more than `scan` bytes follow, and a part begins in
/// these, or none. All sizes are in bytes. If a chunk may have `min_partition` bytes, nothing is read. The offsets rise
/// unless scans overlap.
/// The error is `UnexpectedEof` if the bytes end before the end of a scan, `Io(Input)` only if the reader failed, and
/// otherwise `OutOfMemory`.
pub fn find_partitions<R: ReadAt>(
    alloc: Global,
    reader: &mut R,
    size: u64,
    limits: &Limits,
    min_partition: u64,
    scan: u64,
) -> Result<Vec<u64>, StoreError>
    requires some { 1 ≤ min_partition }
    requires small { min_partition < 2 ^ 62 }
    requires size { size < 2 ^ 62 }
    requires scan { scan ≤ 2 ^ 30 }
    ensures exact { R.tells reader.old ≡ true → IfOk result (λ starts. starts.items ≡ partitions limits.now (R.bytes reader.old) size min_partition scan) }
    ensures reached { R.tells reader.old ≡ true → OnOk result (AreWithin (R.bytes reader.old) scan (places limits.now size min_partition scan)) }
    ensures refused { R.tells reader.old ≡ true → AreWithin (R.bytes reader.old) scan (places limits.now size min_partition scan) → IfErr result (λ e. (e ≡ Io Input) ⊎ (e ≡ OutOfMemory)) }
    ensures begins { IfOk result (λ starts. (rest : List ℕ) × (starts.items ≡ 0 ∷ rest) × All (λ start. start < size) rest) }
    ensures rises { scan ≤ min_partition → IfOk result (λ starts. AllPairs ◌<◌ starts.items) }
    ensures whole { min_partition ≤ limits.now.maximum_chunk → IfOk result (λ starts. starts.items ≡ 0 ∷ []) }
    ensures unread { min_partition ≤ limits.now.maximum_chunk → IfErr result (λ e. e ≡ OutOfMemory) × (reader.new ≡ reader.old) }
    ensures kinds { IfErr result (λ e. (e ≡ UnexpectedEof) ⊎ (e ≡ Io Input) ⊎ (e ≡ OutOfMemory)) }
    ensures frame { ReadFrom R.bytes R.tells R.faults R.lent reader.old reader.new (IsErrOf result (Io Input)) }
{
    let mut starts = vec![in alloc; 0]?;
    if scan > 0 && u64::from(limits.maximum_chunk()) < min_partition {
        let mut bytes = vec![in alloc; 0; scan as usize]?;
        push_parts(reader, size, limits, min_partition, &mut bytes, &mut starts)?;
    }
    Ok(starts)
}

/// Appends where the parts after the first begin. `bytes` has the length of a scan, and is overwritten.
fn push_parts<R: ReadAt>(
    reader: &mut R,
    size: u64,
    limits: &Limits,
    min_partition: u64,
    bytes: &mut [u8],
    starts: &mut Vec<u64>,
) -> Result<(), StoreError>
    requires some { 1 ≤ min_partition }
    requires small { min_partition < 2 ^ 62 }
    requires size { size < 2 ^ 62 }
    requires scan { (1 ≤ length bytes.old) × (length bytes.old ≤ 2 ^ 30) }
    ensures exact { R.tells reader.old ≡ true → OnOk result (starts.new.items ≡ starts.old.items ++ filter_map (part_at limits.now (R.bytes reader.old) (length bytes.old)) (places_from size min_partition (length bytes.old) 1)) }
    ensures reached { R.tells reader.old ≡ true → OnOk result (AreWithin (R.bytes reader.old) (length bytes.old) (places_from size min_partition (length bytes.old) 1)) }
    ensures refused { R.tells reader.old ≡ true → AreWithin (R.bytes reader.old) (length bytes.old) (places_from size min_partition (length bytes.old) 1) → IfErr result (λ e. (e ≡ Io Input) ⊎ (e ≡ OutOfMemory)) }
    ensures added { OnOk result ((more : List ℕ) × (starts.new.items ≡ starts.old.items ++ more) × All (λ start. start < size) more) }
    ensures rises { length bytes.old ≤ min_partition → AllPairs ◌<◌ starts.old.items → All (λ start. start ≤ min_partition) starts.old.items → OnOk result (AllPairs ◌<◌ starts.new.items) }
    ensures kinds { IfErr result (λ e. (e ≡ UnexpectedEof) ⊎ (e ≡ Io Input) ⊎ (e ≡ OutOfMemory)) }
    ensures frame { ReadFrom R.bytes R.tells R.faults R.lent reader.old reader.new (IsErrOf result (Io Input)) }
{
    let scan = bytes.len() as u64;
    let mut place = min_partition;
    'places: while is_scanned(size, min_partition, scan, place) {
        if let Some(start) = read_part(reader, limits, place, bytes)? {
            starts.push(start)?;
        }
        place += min_partition;
    }
    Ok(())
}

/// Whether a place is scanned: more bytes than a part, and than a scan, follow it.
fn is_scanned(size: u64, min_partition: u64, scan: u64, place: u64) -> bool
    requires part { place + min_partition < 2 ^ 64 }
    requires scan { place + scan < 2 ^ 64 }
    ensures { result ≡ is_scanned size min_partition scan place }
{
    place + min_partition < size && place + scan < size
}

/// Scans the bytes at a place, as many as `bytes` has room for, and returns where a part begins there, if one does.
fn read_part<R: ReadAt>(
    reader: &mut R,
    limits: &Limits,
    place: u64,
    bytes: &mut [u8],
) -> Result<Option<u64>, StoreError>
    requires some { 1 ≤ length bytes.old }
    requires fits { place + length bytes.old < 2 ^ 64 }
    ensures exact { R.tells reader.old ≡ true → IfOk result (λ start. start ≡ part_at limits.now (R.bytes reader.old) (length bytes.old) place) }
    ensures reached { R.tells reader.old ≡ true → OnOk result (length bytes.old ≤ length (R.bytes reader.old) - place) }
    ensures refused { R.tells reader.old ≡ true → length bytes.old ≤ length (R.bytes reader.old) - place → IfErr result (λ e. e ≡ Io Input) }
    ensures within { IfOk result (λ found. IfSome found (λ start. (place < start) × (start ≤ place + length bytes.old))) }
    ensures len { length bytes.new ≡ length bytes.old }
    ensures kinds { IfErr result (λ e. (e ≡ UnexpectedEof) ⊎ (e ≡ Io Input)) }
    ensures frame { ReadFrom R.bytes R.tells R.faults R.lent reader.old reader.new (IsErrOf result (Io Input)) }
{
    read_exact(reader, place, bytes)?;
    match part_in(limits, bytes) {
        Some(offset) => Ok(Some(place + offset as u64)),
        None => Ok(None),
    }
}

/// The offset in scanned bytes at which a part may begin: the end of the first chunk, from the third on, that is neither
/// short nor long, and is after one that is neither.
fn part_in(limits: &Limits, bytes: &[u8]) -> Option<usize>
    ensures value { result ≡ part_in limits.now bytes.now }
    ensures within { IfSome result (λ n. (1 ≤ n) × (n ≤ length bytes.now)) }
{
    limits.recall_invariant();
    let Some(first) = complete_len(limits, bytes) else {
        return None;
    };
    let Some(second) = complete_len(limits, &bytes[first..]) else {
        return None;
    };
    let mut previous = second;
    let mut end = first + second;
    'chunks: while let Some(length) = complete_len(limits, &bytes[end..]) {
        end += length;
        if is_medium(limits, previous) && is_medium(limits, length) {
            return Some(end);
        }
        previous = length;
    }
    None
}

/// The length of the first chunk of these bytes, with a minimum chunk of 1, if it is complete.
fn complete_len(limits: &Limits, bytes: &[u8]) -> Option<usize>
    ensures value { result ≡ boundary_in (with_minimum limits.now 1) bytes.now }
    ensures within { IfSome result (λ n. (1 ≤ n) × (n ≤ length bytes.now)) }
{
    limits.recall_invariant();
    boundary_from(limits, 1, &[], bytes)
}

/// Whether a length is above the minimum chunk, and below the maximum less the minimum.
fn is_medium(limits: &Limits, length: usize) -> bool
    ensures { result ≡ is_medium limits.now length }
{
    let minimum = limits.minimum_chunk() as usize;
    minimum < length && length < limits.maximum_chunk() as usize - minimum
}
