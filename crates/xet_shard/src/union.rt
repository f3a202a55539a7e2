//! The union of two shards.

ghost use Rattle.std.specs.Prelude.{◌≡◌, ◌≢◌, ◌⊎◌, ◌≤◌, ◌<◌, ◌^◌, ◌++◌, [], Ok, true, false, max, IfErr, IfOk, IsErrOf, IsFalse, IsTrue, OnErr, OnOk, length, map};
ghost use Rattle.std.specs.List.{AllByRecursion};
ghost use Rattle.xet_io.specs.Faults.{Rose};
ghost use Rattle.xet_shard.specs.internal.Merging.{AreOfShard, FirstAgrees, IsNoMerge, IsNoText, Rises, after_hash, below, not_below};
ghost use Rattle.xet_codec.specs.Parsing.{GivesUnlessFault};
ghost use Rattle.xet_shard_format.specs.Reading.{IsShardError};
ghost use Rattle.xet_shard_format.specs.Records.{section};
ghost use Rattle.xet_shard.specs.Union.{Agree, HasUnionPrefix, IsKeyed, IsNoUnion, IsUnion, IsUnionError, both_in, records_in, union};
ghost use Rattle.xet_io.specs.Frame.{Called, ReadFrom};

use crate::info::MDBShardInfo;
use crate::reader::sections::{blocks, files};
use crate::write::{write_bytes, write_shard};
use std::alloc::{AllocError, Global};
use xet_hash::{HMACKey, MerkleHash, Place, Reason, StoreError};
use xet_io::{ReadAt, Sink};
use xet_shard_format::section::{Lends, Record};
use xet_shard_format::{MDBFileInfo, MDBShardFileFooter, MDBXorbInfo};

/// The xorbs and the files of a shard.
type Records = (Vec<MDBXorbInfo>, Vec<MDBFileInfo>);

/// Writes the shard of all xorbs and files of two shards, each hash once, with all lookup tables. It has no
/// key and no expiry, and its creation time is the later of theirs. Returns its header and footer.
/// The error is `InvalidArguments` if either shard is keyed, or if two different records have the same hash.
/// If files or xorbs are malformed, the error is that of the first check that fails; the first shard is
/// checked first. After these errors nothing was written. If no records differ, a section of 2^32 rows or
/// more is `MalformedData(SectionPlace)`. The error is `Io(Input)` if a reader failed, and `Io(Output)` if
/// the sink failed.
pub fn shard_set_union<R: ReadAt, Q: ReadAt, W: Sink>(
    alloc: Global,
    first: &MDBShardInfo,
    reader: &mut R,
    second: &MDBShardInfo,
    other: &mut Q,
    sink: &mut W,
) -> Result<MDBShardInfo, StoreError>
    ensures keyed { IsKeyed first.now.metadata ⊎ IsKeyed second.now.metadata → IsErrOf result StoreError.InvalidArguments }
    ensures nothing { IsKeyed first.now.metadata ⊎ IsKeyed second.now.metadata → W.written sink.new ≡ W.written sink.old }
    ensures written { R.tells reader.old ≡ true → Q.tells other.old ≡ true → W.tells sink.old ≡ true
        → IfOk result (λ info. IsUnion (both_in first.now.metadata (R.bytes reader.old) second.now.metadata (Q.bytes other.old)) first.now.metadata.shard_creation_timestamp second.now.metadata.shard_creation_timestamp info (W.written sink.old) (W.written sink.new)) }
    ensures prefix { R.tells reader.old ≡ true → Q.tells other.old ≡ true → W.tells sink.old ≡ true
        → OnErr result (HasUnionPrefix (both_in first.now.metadata (R.bytes reader.old) second.now.metadata (Q.bytes other.old)) first.now.metadata.shard_creation_timestamp second.now.metadata.shard_creation_timestamp (W.written sink.old) (W.written sink.new)) }
    ensures refused { R.tells reader.old ≡ true → Q.tells other.old ≡ true
        → IfErr result (IsNoUnion first.now.metadata second.now.metadata (both_in first.now.metadata (R.bytes reader.old) second.now.metadata (Q.bytes other.old))) }
    ensures errors { IfErr result IsUnionError }
    ensures input { IsErrOf result (StoreError.Io Place.Input) → Rose (R.faults reader.old) (R.faults reader.new) ⊎ Rose (Q.faults other.old) (Q.faults other.new) }
    ensures reader { ReadFrom R.bytes R.tells R.faults R.lent reader.old reader.new ⊥ }
    ensures other { ReadFrom Q.bytes Q.tells Q.faults Q.lent other.old other.new ⊥ }
    ensures sink { Called W.tells W.faults sink.old sink.new (IsErrOf result (StoreError.Io Place.Output)) }
{
    if is_keyed(&first.metadata) {
        return Err(StoreError::InvalidArguments);
    }
    if is_keyed(&second.metadata) {
        return Err(StoreError::InvalidArguments);
    }
    let (ours, theirs) = both_records(alloc, &first.metadata, reader, &second.metadata, other)?;
    let (encoding, info) = union_bytes(
        alloc,
        &ours,
        &theirs,
        first.metadata.shard_creation_timestamp,
        second.metadata.shard_creation_timestamp,
    )?;
    write_bytes(sink, &encoding)?;
    Ok(info)
}

/// Whether a shard is keyed.
fn is_keyed(f: &MDBShardFileFooter) -> bool
    ensures keyed { IsTrue result → IsKeyed f.now }
    ensures plain { IsFalse result → IsKeyed f.now → ⊥ }
{
    f.chunk_hash_hmac_key != HMACKey::default()
}

/// The records of two shards. Those of the first are read first.
fn both_records<R: ReadAt, Q: ReadAt>(
    alloc: Global,
    f: &MDBShardFileFooter,
    reader: &mut R,
    g: &MDBShardFileFooter,
    other: &mut Q,
) -> Result<(Records, Records), StoreError>
    ensures exact { R.tells reader.old ≡ true → Q.tells other.old ≡ true
        → GivesUnlessFault (λ p. ((p.0.0.items, p.0.1.items), (p.1.0.items, p.1.1.items))) result (both_in f.now (R.bytes reader.old) g.now (Q.bytes other.old)) }
    ensures first { IfOk result (λ p. AreOfShard (p.0.0.items, p.0.1.items)) }
    ensures second { IfOk result (λ p. AreOfShard (p.1.0.items, p.1.1.items)) }
    ensures errors { IfErr result IsShardError }
    ensures input { IsErrOf result (StoreError.Io Place.Input) → Rose (R.faults reader.old) (R.faults reader.new) ⊎ Rose (Q.faults other.old) (Q.faults other.new) }
    ensures reader { ReadFrom R.bytes R.tells R.faults R.lent reader.old reader.new ⊥ }
    ensures other { ReadFrom Q.bytes Q.tells Q.faults Q.lent other.old other.new ⊥ }
{
    let ours = read_records(alloc, reader, f)?;
    let theirs = read_records(alloc, other, g)?;
    Ok((ours, theirs))
}

/// The records of a shard. Its files are read first.
fn read_records<R: ReadAt>(
    alloc: Global,
    reader: &mut R,
    f: &MDBShardFileFooter,
) -> Result<Records, StoreError>
    ensures exact { R.tells reader.old ≡ true → GivesUnlessFault (λ x. (x.0.items, x.1.items)) result (records_in f.now (R.bytes reader.old)) }
    ensures form { IfOk result (λ x. AreOfShard (x.0.items, x.1.items)) }
    ensures errors { IfErr result IsShardError }
    ensures frame { ReadFrom R.bytes R.tells R.faults R.lent reader.old reader.new (IsErrOf result (StoreError.Io Place.Input)) }
{
    let found = files(alloc, reader, f)?;
    let xorbs = blocks(alloc, reader, f)?;
    Ok((xorbs, found))
}

/// The encoding of the union of the records of two shards, with its header and footer. `creation` and `other`
/// are their creation times.
fn union_bytes(
    alloc: Global,
    ours: &Records,
    theirs: &Records,
    creation: u64,
    other: u64,
) -> Result<(Vec<u8>, MDBShardInfo), StoreError>
    requires ours { AreOfShard (ours.now.0.items, ours.now.1.items) }
    requires theirs { AreOfShard (theirs.now.0.items, theirs.now.1.items) }
    ensures encoding { IfOk result (λ x. IsUnion (Ok ((ours.now.0.items, ours.now.1.items), (theirs.now.0.items, theirs.now.1.items))) creation other x.1 [] x.0.items) }
    ensures refused { IfErr result (IsNoText ((ours.now.0.items, ours.now.1.items), (theirs.now.0.items, theirs.now.1.items)) creation other) }
{
    let xorbs = merge::<MDBXorbInfo>(alloc, &ours.0, &theirs.0)?;
    let found = merge::<MDBFileInfo>(alloc, &ours.1, &theirs.1)?;
    if !is_few::<MDBFileInfo, &MDBFileInfo>(&found)
        || !is_few::<MDBXorbInfo, &MDBXorbInfo>(&xorbs)
    {
        return Err(StoreError::MalformedData(Reason::SectionPlace));
    }
    let latest = creation.max(other);
    let written = write_shard(alloc, &xorbs, &found, HMACKey::default(), latest, u64::MAX)?;
    Ok(written)
}

/// Whether the section of these records has fewer than 2^32 rows, the end row included.
fn is_few<R: Record, T: Lends<R>>(records: &[T]) -> bool
    requires { AllByRecursion (λ r. length (R.rows_of r) < 2 ^ 32) (map T.lent records.now) }
    ensures few { IsTrue result → length (section R.rows_of (map T.lent records.now)) < 2 ^ 32 }
    ensures many { IsFalse result → 2 ^ 32 ≤ length (section R.rows_of (map T.lent records.now)) }
{
    let mut rows: u64 = 1;
    for item in records {
        rows += u64::from(item.lend().num_rows());
        if rows >= 1 << 32 {
            return false;
        }
    }
    true
}

/// The union of two lists of records in ascending order of hash. `InvalidArguments` if two different records
/// have the same hash.
fn merge<'a, R: Record>(
    alloc: Global,
    ours: &'a [R],
    theirs: &'a [R],
) -> Result<Vec<&'a R>, StoreError>
    requires ours { Rises R.hash_of ours.now }
    requires theirs { Rises R.hash_of theirs.now }
    ensures union { IfOk result (λ v. map (λ r. r.now) v.items ≡ union R.hash_of ours.now theirs.now) }
    ensures agree { OnOk result (Agree R.hash_of ours.now theirs.now) }
    ensures refused { IfErr result (IsNoMerge (Agree R.hash_of ours.now theirs.now)) }
{
    let mut found = Vec::with_capacity(alloc, ours.len().saturating_add(theirs.len()))?;
    let mut rest = theirs;
    for this in ours {
        let others = push_below(&mut found, rest, this.hash())?;
        rest = behind(this, others)?;
        found.push(this)?;
    }
    push_all(&mut found, rest)?;
    Ok(found)
}

/// Appends the first records, those with a hash below `hash`, and returns the records after them.
fn push_below<'a, R: Record>(
    found: &mut Vec<&'a R>,
    records: &'a [R],
    hash: MerkleHash,
) -> Result<&'a [R], AllocError>
    ensures pushed { OnOk result (map (λ r. r.now) found.new.items ≡ map (λ r. r.now) found.old.items ++ below R.hash_of hash records.now) }
    ensures rest { IfOk result (λ rest. rest.now ≡ not_below R.hash_of hash records.now) }
{
    let mut rest = records;
    for next in records {
        if !next.hash().cmp(&hash).is_lt() {
            return Ok(rest);
        }
        found.push(next)?;
        let (_, others) = rest.split_at(1);
        rest = others;
    }
    Ok(rest)
}

/// The records without the first one, if that is `this`. `InvalidArguments` if it is another record with the
/// same hash.
fn behind<'a, R: Record>(this: &R, records: &'a [R]) -> Result<&'a [R], StoreError>
    ensures rest { IfOk result (λ rest. rest.now ≡ after_hash R.hash_of (R.hash_of this.now) records.now) }
    ensures agrees { OnOk result (FirstAgrees R.hash_of this.now records.now) }
    ensures differs { OnErr result (FirstAgrees R.hash_of this.now records.now → ⊥) }
    ensures refused { IfErr result (λ e. e ≡ StoreError.InvalidArguments) }
{
    let Some((first, others)) = records.split_first() else {
        return Ok(records);
    };
    if first.hash() != this.hash() {
        return Ok(records);
    }
    if !this.same(first) {
        return Err(StoreError::InvalidArguments);
    }
    Ok(others)
}

/// Appends all records.
fn push_all<'a, R: Record>(found: &mut Vec<&'a R>, records: &'a [R]) -> Result<(), AllocError>
    ensures { OnOk result (map (λ r. r.now) found.new.items ≡ map (λ r. r.now) found.old.items ++ records.now) }
{
    for next in records {
        found.push(next)?;
    }
    Ok(())
}
