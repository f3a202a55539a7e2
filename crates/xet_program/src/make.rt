//! The command `make`.

ghost use Rattle.std.specs.Prelude.{◌≡◌, ◌≤◌, ◌⊎◌, ◌∷◌, ℕ, List, true, [], length, IfErr, IfOk, OnOk, IsErrOf, IsOkAnd, IsOkUnless};
ghost use Rattle.xet_io.specs.Disk.{entry_at as get};
ghost use Rattle.xet_cut.specs.Chunking.{chunking};
ghost use Rattle.xet_cut.specs.Generator.{generated};
ghost use Rattle.xet_folder.specs.Contents.{HasTooMany};
ghost use Rattle.xet_folder.specs.Names.{IsForeign};
ghost use Rattle.xet_io.specs.Faults.{HasCause};
ghost use Rattle.xet_io.specs.Frame.{Called};
ghost use Rattle.xet_shard.specs.Held.{nothing};
ghost use Rattle.xet_store_disk.specs.Cleaning.{Keeps};
ghost use Rattle.xet_program.specs.Making.{IsMadeText, both_files, with_byte_inserted};
ghost use Rattle.xet_program.specs.Stored.{AreStored, IsAdmittedAt, KeepsFolder, KeepsListed};
ghost use Rattle.xet_program.specs.Tasks.{default_limits, store_folder};
ghost use Rattle.xet_program.specs.Words.{max_generated};
ghost use Rattle.xet_program.specs.internal.Made.{AddsXorbs, FitsPending, HasPlan, IsInserted, IsMade, Pends, counts_text};
ghost use Rattle.xet_program.specs.internal.Steps.{ListsNoOther};
ghost use Rattle.xet_program.specs.internal.Stops.{ForValid, IsStop, answer_outcome, filing_causes, making_causes};

use crate::ending::Stop;
use crate::opening::{FOLDER, not_opened};
use crate::session::clean_sources;
use crate::words::default_limits;
use std::alloc::Global;
use std::marker::{Send, Sync};
use std::sync::Wait;
use std::thread::Threads;
use xet_cut::generated;
use xet_io::{Disk, SliceSource};
use xet_store::Store;

/// The number of chunks of a file, and of those that were new.
#[derive(Clone, Copy, Debug)]
pub struct ChunkCounts {
    /// All chunks.
    pub all: u64,
    /// New chunks.
    pub new: u64,
}

/// Stores a generated file of this seed and length in the folder `store` of a disk, and then the same file with one byte
/// inserted. Returns the disk, and how many chunks each has and how many of them were new, or why it stops. The files are
/// not recorded in the folder. `now` is the time in seconds since 1970.
pub fn make<D: Disk + Send, R: Threads + Wait + Sync>(
    rt: &R,
    alloc: Global,
    seed: u64,
    bytes: u64,
    disk: D,
    now: u64,
) -> (D, Result<Vec<u8>, Stop>)
    requires { bytes ≤ max_generated }
    ensures made { IfOk result.1 (λ text. ForValid (D.tells disk) (D.files disk) now (λ contents. IsMadeText (D.tells disk) contents (D.files result.0) (generated seed bytes) text.items)) }
    ensures stop { IfErr result.1 (IsStop (making_causes (D.tells disk) now (D.files disk) (D.files result.0) (generated seed bytes))) }
    ensures listed { D.tells disk ≡ true → KeepsListed now (D.files disk) (D.files result.0) }
    ensures keeps { D.tells disk ≡ true → KeepsFolder now (D.files disk) (D.files result.0) }
    ensures refused { D.tells disk ≡ true → (IsAdmittedAt now (D.files disk) → ⊥) → D.files result.0 ≡ D.files disk }
    ensures overfull { D.tells disk ≡ true → HasTooMany (D.files disk) store_folder now → D.files result.0 ≡ D.files disk }
    ensures kept { D.tells disk ≡ true → (answer_outcome result.1).status ≡ 7 → D.files result.0 ≡ D.files disk }
    ensures foreign { D.tells disk ≡ true → (name : List ℕ) → IsForeign store_folder name → get (D.files result.0) name ≡ get (D.files disk) name }
    ensures stored { D.tells disk ≡ true → OnOk result.1 (AreStored default_limits [] now (D.files disk) (D.files result.0)) }
    ensures frame { Called D.tells D.faults disk result.0 (IsErrOf result.1 Stop.Disk) }
{
    match generated(alloc, seed, bytes as usize) {
        Ok(file) => store_file(rt, alloc, file, disk, now),
        Err(_) => (disk, Err(Stop::OutOfMemory)),
    }
}

/// Stores a file, and then the same with one byte inserted. Returns the disk and the text, or why it stops.
fn store_file<D: Disk + Send, R: Threads + Wait + Sync>(
    rt: &R,
    alloc: Global,
    bytes: Vec<u8>,
    disk: D,
    now: u64,
) -> (D, Result<Vec<u8>, Stop>)
    requires { length bytes.items ≤ max_generated }
    ensures made { IfOk result.1 (λ text. ForValid (D.tells disk) (D.files disk) now (λ contents. IsMadeText (D.tells disk) contents (D.files result.0) bytes.items text.items)) }
    ensures stop { IfErr result.1 (IsStop (making_causes (D.tells disk) now (D.files disk) (D.files result.0) bytes.items)) }
    ensures listed { D.tells disk ≡ true → KeepsListed now (D.files disk) (D.files result.0) }
    ensures keeps { D.tells disk ≡ true → KeepsFolder now (D.files disk) (D.files result.0) }
    ensures refused { D.tells disk ≡ true → (IsAdmittedAt now (D.files disk) → ⊥) → D.files result.0 ≡ D.files disk }
    ensures overfull { D.tells disk ≡ true → HasTooMany (D.files disk) store_folder now → D.files result.0 ≡ D.files disk }
    ensures kept { D.tells disk ≡ true → (answer_outcome result.1).status ≡ 7 → D.files result.0 ≡ D.files disk }
    ensures foreign { D.tells disk ≡ true → (name : List ℕ) → IsForeign store_folder name → get (D.files result.0) name ≡ get (D.files disk) name }
    ensures stored { D.tells disk ≡ true → OnOk result.1 (AreStored default_limits [] now (D.files disk) (D.files result.0)) }
    ensures frame { Called D.tells D.faults disk result.0 (IsErrOf result.1 Stop.Disk) }
{
    match Store::open(alloc, disk, FOLDER, default_limits(), now, false) {
        Ok(session) => {
            let (session, answer) = store_both(rt, alloc, session, bytes);
            session.recall_sound();
            session.recall_invariant();
            let disk = session.into_disk();
            (disk, answer)
        }
        Err(refused) => not_opened(refused),
    }
}

/// Stores a file in a session, and then the same with one byte inserted. Returns the session and the text, or why it stops.
fn store_both<D: Disk + Send, R: Threads + Wait + Sync>(
    rt: &R,
    alloc: Global,
    session: Store<D>,
    bytes: Vec<u8>,
) -> (Store<D>, Result<Vec<u8>, Stop>)
    requires limits { session.store.limits ≡ default_limits }
    requires short { length bytes.items ≤ max_generated }
    requires folder { session.store.folder ≡ store_folder }
    requires fresh { session.store.pending ≡ nothing }
    ensures other { session.store.tells ≡ true → OnOk result.1 (ListsNoOther session.store [] result.0.store) }
    ensures made { IfOk result.1 (λ text. IsMade bytes.items session.store result.0.store text.items) }
    ensures keeps { Keeps session.store result.0.store }
    ensures stop { IfErr result.1 (IsStop (filing_causes session result.0 (both_files bytes.items))) }
    ensures cause { HasCause session.store.faults result.0.store.faults (IsErrOf result.1 Stop.Disk) }
{
    let (session, first) = store_one(rt, alloc, session, &bytes);
    match first {
        Ok(first) => store_inserted(rt, alloc, session, bytes, first),
        Err(stop) => (session, Err(stop)),
    }
}

/// Stores a file with one byte inserted in a session that has the file. Returns the session and the text, or why it stops.
fn store_inserted<D: Disk + Send, R: Threads + Wait + Sync>(
    rt: &R,
    alloc: Global,
    session: Store<D>,
    bytes: Vec<u8>,
    first: ChunkCounts,
) -> (Store<D>, Result<Vec<u8>, Stop>)
    requires limits { session.store.limits ≡ default_limits }
    requires short { length bytes.items ≤ max_generated }
    requires folder { session.store.folder ≡ store_folder }
    requires room { FitsPending session.store (with_byte_inserted bytes.items ∷ []) }
    ensures other { session.store.tells ≡ true → OnOk result.1 (ListsNoOther session.store [] result.0.store) }
    ensures made { IfOk result.1 (λ text. IsInserted bytes.items first session.store result.0.store text.items) }
    ensures keeps { Keeps session.store result.0.store }
    ensures stop { IfErr result.1 (IsStop (filing_causes session result.0 (with_byte_inserted bytes.items ∷ []))) }
    ensures cause { HasCause session.store.faults result.0.store.faults (IsErrOf result.1 Stop.Disk) }
{
    match with_byte_inserted(bytes) {
        Ok(bytes) => {
            let (session, second) = store_one(rt, alloc, session, &bytes);
            let answer = answer_of(alloc, first, second, session.xorb_count());
            (session, answer)
        }
        Err(stop) => (session, Err(stop)),
    }
}

/// The bytes with one zero byte inserted at half their length. The only error is `OutOfMemory`.
fn with_byte_inserted(bytes: Vec<u8>) -> Result<Vec<u8>, Stop>
    ensures inserted { IfOk result (λ new. new.items ≡ with_byte_inserted bytes.items) }
    ensures memory { IsOkUnless result Stop.OutOfMemory }
{
    let mut bytes = bytes;
    let middle = bytes.len() / 2;
    bytes.insert(middle, 0)?;
    Ok(bytes)
}

/// Stores one file in a session, and returns the number of its chunks, and of those that were new, or why it stops.
fn store_one<D: Disk + Send, R: Threads + Wait + Sync>(
    rt: &R,
    alloc: Global,
    session: Store<D>,
    bytes: &[u8],
) -> (Store<D>, Result<ChunkCounts, Stop>)
    requires short { length bytes.now ≤ session.store.limits.max_source_bytes }
    requires folder { session.store.folder ≡ store_folder }
    requires room { FitsPending session.store (bytes.now ∷ []) }
    ensures other { session.store.tells ≡ true → OnOk result.1 (ListsNoOther session.store [] result.0.store) }
    ensures pends { OnOk result.1 (Pends (bytes.now ∷ []) session.store result.0.store) }
    ensures counts { IfOk result.1 (λ counts. (counts.all ≡ length (chunking session.store.limits bytes.now)) × (counts.new ≤ counts.all)) }
    ensures planned { OnOk result.1 (HasPlan result.0.store bytes.now) }
    ensures added { IfOk result.1 (λ counts. AddsXorbs counts.new session.store result.0.store) }
    ensures keeps { Keeps session.store result.0.store }
    ensures stop { IfErr result.1 (IsStop (filing_causes session result.0 (bytes.now ∷ []))) }
    ensures cause { HasCause session.store.faults result.0.store.faults (IsErrOf result.1 Stop.Disk) }
{
    let mut sources = [SliceSource::new(bytes)];
    let (session, cleaned) = clean_sources(rt, alloc, session, &mut sources, 1);
    match cleaned {
        Ok(cleaned) => {
            let all = cleaned.metrics.total_chunks;
            let new = cleaned.metrics.new_chunks;
            (session, Ok(ChunkCounts { all, new }))
        }
        Err(stop) => (session, Err(stop)),
    }
}

/// The line of each file, and that of the number of xorbs; or why the second file was not stored, or `OutOfMemory`.
fn answer_of(
    alloc: Global,
    first: ChunkCounts,
    second: Result<ChunkCounts, Stop>,
    xorbs: u64,
) -> Result<Vec<u8>, Stop>
    ensures text { IfOk result (λ text. IsOkAnd second (λ second. text.items ≡ counts_text first second xorbs)) }
    ensures stop { IfErr result (λ stop. (stop ≡ Stop.OutOfMemory) ⊎ IsErrOf second stop) }
{
    match second {
        Ok(second) => counts_text(alloc, first, second, xorbs),
        Err(stop) => Err(stop),
    }
}

/// The line of each file, and that of the number of xorbs. The only error is `OutOfMemory`.
fn counts_text(
    alloc: Global,
    first: ChunkCounts,
    second: ChunkCounts,
    xorbs: u64,
) -> Result<Vec<u8>, Stop>
    ensures text { IfOk result (λ text. text.items ≡ counts_text first second xorbs) }
    ensures memory { IsOkUnless result Stop.OutOfMemory }
{
    let (all_first, new_first) = (first.all, first.new);
    let (all, new) = (second.all, second.new);
    let text = format!(in alloc; "{all_first} {new_first}\n{all} {new}\nxorbs {xorbs}\n")?;
    Ok(text.into_bytes())
}
