//! The passes over the places of a batch.

ghost use Rattle.std.specs.Prelude.{◌≡◌, ◌<◌, ◌≤◌, ◌+◌, ◌*◌, ◌^◌, ◌++◌, List, length, map, Option, None, Some, false, true, IfErr, IfOk, OnErr, OnOk, replicate, slice_get, slice_set};
ghost use Rattle.xet_choices.specs.Calls.{Call};
ghost use Rattle.xet_dedup_queries.specs.Asking.{AddsQueries, begun, is_worth_asking, kept_found};
ghost use Rattle.xet_dedup_queries.specs.Batch.{IsAsked, IsAskedOnce, StopsAsking};
ghost use Rattle.xet_dedup_queries.specs.Interface.{Extends};
ghost use Rattle.xet_dedup_queries.specs.Passing.{Began, Covers, IsPassing, StopsPassing, covered, missed};
ghost use Rattle.xet_dedup_queries.specs.Places.{ArePlaces};
ghost use Rattle.xet_dedup_queries.specs.declared.places.Place.TheVariants.{Kept, Unasked};

use crate::interface::DeduplicationDataInterface;
use crate::places::Place;
use xet_hash::{MerkleHash, hash_is_global_dedup_eligible};
use xet_shard_format::FileDataSequenceEntry;

/// The index in the batch to which a pass has come, and what it found before that.
#[derive(Clone, Copy)]
pub struct Progress {
    /// The index of the next place.
    pub at: usize,
    /// The number of chunks of the runs that were found.
    pub chunks: u64,
    /// The number of bytes of these runs.
    pub bytes: u64,
}

/// Which pass it is.
#[derive(Clone, Copy)]
pub enum Round {
    /// The first, which begins queries elsewhere. The batch may begin with the first chunk of its file.
    First {
        /// Whether it does.
        is_first: bool,
    },
    /// The second, after queries elsewhere.
    Second,
}

/// Covers the places between `start` and `end`, both excluded, unless a run is kept at them.
fn cover(places: &mut [Place], start: usize, end: usize)
    requires some { start < end }
    requires within { end ≤ length places.old }
    ensures { Covers start end places.old places.new }
{
    for i in start + 1..end {
        places[i] = covered(places[i], start);
    }
}

/// The place once a run from an earlier one covers it.
fn covered(place: Place, start: usize) -> Place
    ensures { result ≡ covered start place }
{
    match place {
        Place::Kept { .. } => place,
        _ => Place::Covered {
            start: start as u64,
        },
    }
}

/// The place once a query from it found nothing.
fn missed(place: Place, entry: u64) -> Place
    ensures { result ≡ missed entry place }
{
    match place {
        Place::Missed { .. } | Place::Unasked => Place::Missed { entry },
        _ => place,
    }
}

/// Whether a query for a hash at this index of the batch, which was not found, is begun elsewhere too.
fn is_worth_asking(round: Round, at: usize, hash: &MerkleHash) -> bool
    ensures { result ≡ is_worth_asking round at hash.now }
{
    match round {
        Round::First { is_first } => {
            (is_first && at == 0) || hash_is_global_dedup_eligible(hash)
        }
        Round::Second => false,
    }
}

/// Begins a query elsewhere for a hash at this index of the batch, which was not found, if it is worth asking.
fn ask_elsewhere<I: DeduplicationDataInterface>(
    interface: &mut I,
    round: Round,
    at: usize,
    hash: &MerkleHash,
) -> Result<(), I::ErrorType>
    ensures acted { OnOk result (I.acts interface.new ≡ I.acts interface.old ++ begun round at hash.now) }
    ensures kept_acts { OnErr result (I.acts interface.new ≡ I.acts interface.old) }
    ensures worth { OnErr result (is_worth_asking round at hash.now ≡ true) }
    ensures calls { I.calls interface.new ≡ I.calls interface.old }
    ensures extends { Extends I.lists I.stands I.refused I.cut_limits interface.old interface.new }
    ensures refused { IfErr result (λ e. I.refused interface.old interface.new e) }
    ensures passed { OnOk result (I.failed interface.new ≡ I.failed interface.old) }
{
    if !is_worth_asking(round, at, hash) {
        return Ok(());
    }
    interface.register_global_dedup_query(*hash)
}

/// Keeps a run of `count` chunks that a query found, and goes on after it.
fn keep(
    places: &mut [Place],
    progress: Progress,
    count: usize,
    run: FileDataSequenceEntry,
    is_external: bool,
) -> Progress
    requires some { 0 < count }
    requires within { progress.at + count ≤ length places.old }
    requires few { progress.chunks ≤ progress.at }
    requires small { progress.bytes ≤ progress.at * 4294967295 }
    requires room { length places.old < 2 ^ 32 }
    ensures covers { Covers progress.at (progress.at + count) (slice_set places.old progress.at (Kept run is_external)) places.new }
    ensures progress { result ≡ record { at = progress.at + count; chunks = progress.chunks + count; bytes = progress.bytes + run.unpacked_segment_bytes } }
{
    let at = progress.at;
    let end = at + count;
    let bytes = u64::from(run.unpacked_segment_bytes);
    places[at] = Place::Kept { run, is_external };
    cover(places, at, end);
    Progress {
        at: end,
        chunks: progress.chunks + count as u64,
        bytes: progress.bytes + bytes,
    }
}

/// Queries at a place where no run is kept.
fn ask<I: DeduplicationDataInterface>(
    interface: &mut I,
    hashes: &[MerkleHash],
    places: &mut [Place],
    progress: Progress,
    round: Round,
) -> Result<Progress, I::ErrorType>
    requires passing { (began : Began) × IsPassing (I.lists interface.old) (I.stands interface.old) round hashes.now began (I.calls interface.old) (I.acts interface.old) places.old progress.at progress.chunks progress.bytes }
    requires more { progress.at < length hashes.now }
    requires free { slice_get (map kept_found places.old) progress.at ≡ Some None }
    requires few { length hashes.now < 2 ^ 32 }
    ensures passing { (began : Began) → IsPassing (I.lists interface.old) (I.stands interface.old) round hashes.now began (I.calls interface.old) (I.acts interface.old) places.old progress.at progress.chunks progress.bytes → IfOk result (λ next. IsPassing (I.lists interface.new) (I.stands interface.new) round hashes.now began (I.calls interface.new) (I.acts interface.new) places.new next.at next.chunks next.bytes) }
    ensures stopped { (began : Began) → IsPassing (I.lists interface.old) (I.stands interface.old) round hashes.now began (I.calls interface.old) (I.acts interface.old) places.old progress.at progress.chunks progress.bytes → OnErr result (StopsPassing round hashes.now began (I.calls interface.new) (I.acts interface.new)) }
    ensures on { IfOk result (λ next. progress.at < next.at) }
    ensures extends { Extends I.lists I.stands I.refused I.cut_limits interface.old interface.new }
    ensures prefix { AddsQueries (I.calls interface.old) (I.calls interface.new) }
    ensures refused { IfErr result (λ e. I.refused interface.old interface.new e) }
    ensures passed { OnOk result (I.failed interface.new ≡ I.failed interface.old) }
{
    let at = progress.at;
    match interface.chunk_hash_dedup_query(&hashes[at..])? {
        Some((count, run, is_external)) => Ok(keep(places, progress, count, run, is_external)),
        None => {
            places[at] = missed(places[at], interface.last_query());
            ask_elsewhere(interface, round, at, &hashes[at])?;
            Ok(Progress {
                at: at + 1,
                chunks: progress.chunks,
                bytes: progress.bytes,
            })
        }
    }
}

/// Passes over the run that is kept at a place, or queries there.
fn next_place<I: DeduplicationDataInterface>(
    interface: &mut I,
    hashes: &[MerkleHash],
    places: &mut [Place],
    progress: Progress,
    round: Round,
) -> Result<Progress, I::ErrorType>
    requires passing { (began : Began) × IsPassing (I.lists interface.old) (I.stands interface.old) round hashes.now began (I.calls interface.old) (I.acts interface.old) places.old progress.at progress.chunks progress.bytes }
    requires more { progress.at < length hashes.now }
    requires few { length hashes.now < 2 ^ 32 }
    ensures passing { (began : Began) → IsPassing (I.lists interface.old) (I.stands interface.old) round hashes.now began (I.calls interface.old) (I.acts interface.old) places.old progress.at progress.chunks progress.bytes → IfOk result (λ next. IsPassing (I.lists interface.new) (I.stands interface.new) round hashes.now began (I.calls interface.new) (I.acts interface.new) places.new next.at next.chunks next.bytes) }
    ensures stopped { (began : Began) → IsPassing (I.lists interface.old) (I.stands interface.old) round hashes.now began (I.calls interface.old) (I.acts interface.old) places.old progress.at progress.chunks progress.bytes → OnErr result (StopsPassing round hashes.now began (I.calls interface.new) (I.acts interface.new)) }
    ensures on { IfOk result (λ next. progress.at < next.at) }
    ensures extends { Extends I.lists I.stands I.refused I.cut_limits interface.old interface.new }
    ensures prefix { AddsQueries (I.calls interface.old) (I.calls interface.new) }
    ensures refused { IfErr result (λ e. I.refused interface.old interface.new e) }
    ensures passed { OnOk result (I.failed interface.new ≡ I.failed interface.old) }
{
    let at = progress.at;
    match places[at] {
        Place::Kept { run, .. } => Ok(Progress {
            at: at + (run.chunk_index_end - run.chunk_index_start) as usize,
            chunks: progress.chunks,
            bytes: progress.bytes,
        }),
        _ => ask(interface, hashes, places, progress, round),
    }
}

/// One pass over the places of a batch. Returns what it found.
fn pass<I: DeduplicationDataInterface>(
    interface: &mut I,
    hashes: &[MerkleHash],
    places: &mut [Place],
    round: Round,
) -> Result<Progress, I::ErrorType>
    requires begins { (began : Began) × IsPassing (I.lists interface.old) (I.stands interface.old) round hashes.now began (I.calls interface.old) (I.acts interface.old) places.old 0 0 0 }
    requires few { length hashes.now < 2 ^ 32 }
    ensures ends { (began : Began) → IsPassing (I.lists interface.old) (I.stands interface.old) round hashes.now began (I.calls interface.old) (I.acts interface.old) places.old 0 0 0 → IfOk result (λ found. IsPassing (I.lists interface.new) (I.stands interface.new) round hashes.now began (I.calls interface.new) (I.acts interface.new) places.new found.at found.chunks found.bytes × (found.at ≡ length hashes.now)) }
    ensures stopped { (began : Began) → IsPassing (I.lists interface.old) (I.stands interface.old) round hashes.now began (I.calls interface.old) (I.acts interface.old) places.old 0 0 0 → OnErr result (StopsPassing round hashes.now began (I.calls interface.new) (I.acts interface.new)) }
    ensures extends { Extends I.lists I.stands I.refused I.cut_limits interface.old interface.new }
    ensures prefix { AddsQueries (I.calls interface.old) (I.calls interface.new) }
    ensures refused { IfErr result (λ e. I.refused interface.old interface.new e) }
    ensures passed { OnOk result (I.failed interface.new ≡ I.failed interface.old) }
{
    let mut progress = Progress {
        at: 0,
        chunks: 0,
        bytes: 0,
    };
    while progress.at < hashes.len() {
        progress = next_place(interface, hashes, places, progress, round)?;
    }
    Ok(progress)
}

/// The passes over the places of a batch, to which no query came so far. Returns what the second one found, if there is
/// one.
pub fn ask_all<I: DeduplicationDataInterface>(
    interface: &mut I,
    hashes: &[MerkleHash],
    places: &mut [Place],
    is_first: bool,
) -> Result<Progress, I::ErrorType>
    requires unasked { places.old ≡ replicate (length hashes.now) Unasked }
    requires few { length hashes.now < 2 ^ 32 }
    ensures places { OnOk result ((added : List Call) × (I.calls interface.new ≡ I.calls interface.old ++ added) × ArePlaces (I.lists interface.new) (I.stands interface.new) (I.calls interface.old) added hashes.now places.new) }
    ensures asked { IfOk result (λ found. IsAsked is_first hashes.now (I.calls interface.old) (I.calls interface.new) (I.acts interface.old) (I.acts interface.new) places.new found.chunks found.bytes) }
    ensures once { I.is_global ≡ false → IfOk result (λ found. IsAskedOnce is_first hashes.now (I.calls interface.old) (I.calls interface.new) (I.acts interface.old) (I.acts interface.new) places.new × (found.chunks ≡ 0) × (found.bytes ≡ 0)) }
    ensures stopped { OnErr result (StopsAsking I.is_global is_first hashes.now (I.calls interface.old) (I.calls interface.new) (I.acts interface.old) (I.acts interface.new)) }
    ensures extends { Extends I.lists I.stands I.refused I.cut_limits interface.old interface.new }
    ensures prefix { AddsQueries (I.calls interface.old) (I.calls interface.new) }
    ensures refused { IfErr result (λ e. I.refused interface.old interface.new e) }
    ensures passed { OnOk result (I.failed interface.new ≡ I.failed interface.old) }
{
    pass(interface, hashes, places, Round::First { is_first })?;
    if !interface.complete_global_dedup_queries()? {
        return Ok(Progress {
            at: 0,
            chunks: 0,
            bytes: 0,
        });
    }
    let found = pass(interface, hashes, places, Round::Second)?;
    // The answer does not matter: there is no third pass.
    interface.complete_global_dedup_queries()?;
    Ok(found)
}
