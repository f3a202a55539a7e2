//! Cleaning files in a session, and reporting them and ranges of them.

ghost use Rattle.std.specs.List.{AllByRecursion, flat_map};
ghost use Rattle.std.specs.Prelude.{◌≡◌, ◌≤◌, ◌<◌, ◌^◌, ◌++◌, ℕ, List, true, length, map, All, IfErr, IfOk, OnOk, IsErrOf, IsOkUnless, IsSome};
ghost use Rattle.xet_folder.specs.Contents.{HasContents};
ghost use Rattle.xet_io.specs.Faults.{HasCause};
ghost use Rattle.xet_shard.specs.Held.{nothing};
ghost use Rattle.xet_store_disk.specs.Cleaning.{Keeps};
ghost use Rattle.xet_store_disk.specs.Opening.{contents_of};
ghost use Rattle.xet_store_disk.specs.Ranges.{IsUnchanged};
ghost use Rattle.xet_store_disk.specs.Store.{plan_of};
ghost use Rattle.xet_program.specs.Tasks.{store_folder};
ghost use Rattle.xet_program.specs.internal.Parsing.{are_good};
ghost use Rattle.xet_program.specs.internal.Report.{info_line};
ghost use Rattle.xet_program.specs.internal.Cleaned.{AreCleaned, IsLinesAnswer};
ghost use Rattle.xet_program.specs.internal.Made.{AddsXorbs, AreCounted};
ghost use Rattle.xet_program.specs.internal.Steps.{AreRead, IsLineRead, IsSettled};
ghost use Rattle.xet_program.specs.internal.Stops.{IsStop, cleaning_causes, range_causes, session_causes, settling_causes};

use crate::ending::Stop;
use crate::lines::{FileRange, PackLines};
use crate::report::{push_bytes_line, report};
use std::alloc::Global;
use std::marker::{Send, Sync};
use std::sync::Wait;
use std::thread::Threads;
use xet_clean::Cleaned;
use xet_io::{Disk, SliceSource, Source};
use xet_store::Store;
use xet_store_disk::XetFileInfo;
use xet_workers::clean_files;

/// Stores the files of some lines in a session, and returns the report of files and ranges, or why it stops.
pub fn report_lines<D: Disk + Send, R: Threads + Wait + Sync>(
    rt: &R,
    alloc: Global,
    session: Store<D>,
    lines: &PackLines,
    workers: u32,
) -> (Store<D>, Result<Vec<u8>, Stop>)
    requires few { length lines.now.files ≤ 2 ^ 20 }
    requires good { are_good lines.now ≡ true }
    requires workers { (1 ≤ workers) × (workers ≤ 256) }
    requires folder { session.store.folder ≡ store_folder }
    requires fresh { session.store.pending ≡ nothing }
    requires contents { session.store.tells ≡ true → HasContents session.store.files session.store.folder session.store.opened (contents_of session.store) }
    ensures answer { IsLinesAnswer lines.now session.store result.0.store result.1 }
    ensures keeps { Keeps session.store result.0.store }
    ensures stop { IfErr result.1 (IsStop (session_causes session result.0 lines.now)) }
    ensures cause { HasCause session.store.faults result.0.store.faults (IsErrOf result.1 Stop.Disk) }
{
    session.limits().recall_invariant();
    let (session, cleaned) = clean_lines(rt, alloc, session, lines, workers);
    session.recall_sound();
    let (session, answer) = report_all(alloc, session, cleaned, lines.ranges());
    session.recall_sound();
    session.recall_invariant();
    (session, answer)
}

/// Cleans the files of some lines in a session.
fn clean_lines<D: Disk + Send, R: Threads + Wait + Sync>(
    rt: &R,
    alloc: Global,
    session: Store<D>,
    lines: &PackLines,
    workers: u32,
) -> (Store<D>, Result<Cleaned, Stop>)
    requires few { length lines.now.files ≤ 2 ^ 20 }
    requires workers { (1 ≤ workers) × (workers ≤ 256) }
    ensures cleaned { IfOk result.1 (λ cleaned. AreCleaned (λ s. true) (λ s. s) lines.now.files session result.0 cleaned.infos.items) }
    ensures keeps { Keeps session.store result.0.store }
    ensures stop { IfErr result.1 (IsStop (session_causes session result.0 lines.now)) }
    ensures cause { HasCause session.store.faults result.0.store.faults (IsErrOf result.1 Stop.Disk) }
{
    match sources_of(alloc, lines) {
        Ok(sources) => {
            let mut sources = sources;
            clean_sources(rt, alloc, session, &mut sources, workers)
        }
        Err(stop) => (session, Err(stop)),
    }
}

/// Cleans the files of some sources in a session, by so many workers.
pub fn clean_sources<D: Disk + Send, S: Source + Send, R: Threads + Wait + Sync>(
    rt: &R,
    alloc: Global,
    session: Store<D>,
    sources: &mut [S],
    workers: u32,
) -> (Store<D>, Result<Cleaned, Stop>)
    requires few { length sources.old ≤ 2 ^ 20 }
    requires workers { (1 ≤ workers) × (workers ≤ 256) }
    ensures cleaned { IfOk result.1 (λ cleaned. AreCleaned S.tells S.left sources.old session result.0 cleaned.infos.items) }
    ensures planned { IfOk result.1 (λ cleaned. AllByRecursion (λ info. IsSome (plan_of result.0.store.records info.hash)) cleaned.infos.items) }
    ensures counted { IfOk result.1 (λ cleaned. AreCounted S.tells S.left session.store.limits sources.old cleaned.metrics) }
    ensures added { IfOk result.1 (λ cleaned. AddsXorbs cleaned.metrics.new_chunks session.store result.0.store) }
    ensures keeps { Keeps session.store result.0.store }
    ensures stop { IfErr result.1 (IsStop (cleaning_causes S.tells S.left S.faults sources.old sources.new session result.0)) }
    ensures sources { map S.tells sources.new ≡ map S.tells sources.old }
    ensures cause { HasCause session.store.faults result.0.store.faults (IsErrOf result.1 Stop.Disk) }
{
    let (session, cleaned) = clean_files(rt, alloc, session, sources, workers);
    match cleaned {
        Ok(cleaned) => (session, Ok(cleaned)),
        Err(error) => (session, Err(Stop::from(error))),
    }
}

/// The bytes of the file lines, as sources.
fn sources_of<'a>(alloc: Global, lines: &'a PackLines) -> Result<Vec<SliceSource<'a>>, Stop>
    ensures sources { IfOk result (λ sources. sources.items ≡ lines.now.files) }
    ensures memory { IsOkUnless result Stop.OutOfMemory }
{
    let mut sources = Vec::new(alloc);
    for file in lines.files() {
        sources.push(SliceSource::new(file))?;
    }
    Ok(sources)
}

/// Flushes a session in which files were cleaned, and returns the report of them and of ranges of them, or why it
/// stops. After an error of cleaning nothing is flushed.
pub fn report_all<D: Disk + Send>(
    alloc: Global,
    session: Store<D>,
    cleaned: Result<Cleaned, Stop>,
    ranges: &[FileRange],
) -> (Store<D>, Result<Vec<u8>, Stop>)
    requires bounds { IfOk cleaned (λ cleaned. All (λ r. (0 < r.file) × (r.file ≤ length cleaned.infos.items)) ranges.now) }
    ensures text { IfOk cleaned (λ cleaned. IfOk result.1 (λ text. (lines : List ℕ) × AreRead result.0.store cleaned.infos.items ranges.now lines × (text.items ≡ flat_map info_line cleaned.infos.items ++ lines))) }
    ensures settled { OnOk cleaned (OnOk result.1 (IsSettled session result.0)) }
    ensures keeps { Keeps session.store result.0.store }
    ensures stop { OnOk cleaned (IfErr result.1 (IsStop (settling_causes session.store.tells result.0))) }
    ensures cause { OnOk cleaned (HasCause session.store.faults result.0.store.faults (IsErrOf result.1 Stop.Disk)) }
    ensures stopped { IfErr cleaned (λ stop. IsErrOf result.1 stop × (result.0 ≡ session)) }
{
    match cleaned {
        Ok(cleaned) => {
            let mut session = session;
            let answer = report_cleaned(alloc, &mut session, &cleaned.infos, ranges);
            (session, answer)
        }
        Err(stop) => (session, Err(stop)),
    }
}

/// Flushes a session, and returns the report of some files and of ranges of them.
fn report_cleaned<D: Disk + Send>(
    alloc: Global,
    session: &mut Store<D>,
    infos: &[XetFileInfo],
    ranges: &[FileRange],
) -> Result<Vec<u8>, Stop>
    requires { All (λ r. (0 < r.file) × (r.file ≤ length infos.now)) ranges.now }
    ensures text { IfOk result (λ text. (lines : List ℕ) × AreRead session.new.store infos.now ranges.now lines × (text.items ≡ flat_map info_line infos.now ++ lines)) }
    ensures settled { OnOk result (IsSettled session.old session.new) }
    ensures keeps { Keeps session.old.store session.new.store }
    ensures stop { IfErr result (IsStop (settling_causes session.old.store.tells session.new)) }
    ensures cause { HasCause session.old.store.faults session.new.store.faults (IsErrOf result Stop.Disk) }
{
    session.flush()?;
    let mut text = report(alloc, infos)?;
    push_ranges(session, infos, ranges, &mut text)?;
    Ok(text)
}

/// Appends the line of each range, in order.
fn push_ranges<D: Disk + Send>(
    session: &mut Store<D>,
    infos: &[XetFileInfo],
    ranges: &[FileRange],
    text: &mut Vec<u8>,
) -> Result<(), Stop>
    requires { All (λ r. (0 < r.file) × (r.file ≤ length infos.now)) ranges.now }
    ensures lines { OnOk result ((lines : List ℕ) × AreRead session.old.store infos.now ranges.now lines × (text.new.items ≡ text.old.items ++ lines)) }
    ensures unchanged { IsUnchanged session.old.store session.new.store }
    ensures recorded { (session.new.shards ≡ session.old.shards) × (session.new.history ≡ session.old.history) }
    ensures stop { IfErr result (IsStop (range_causes session.old.store.tells)) }
    ensures cause { HasCause session.old.store.faults session.new.store.faults (IsErrOf result Stop.Disk) }
{
    for range in ranges {
        push_range(session, infos, range, text)?;
    }
    Ok(())
}

/// Appends the line of a range, whose bytes are read from a session.
fn push_range<D: Disk + Send>(
    session: &mut Store<D>,
    infos: &[XetFileInfo],
    range: &FileRange,
    text: &mut Vec<u8>,
) -> Result<(), Stop>
    requires { (0 < range.now.file) × (range.now.file ≤ length infos.now) }
    ensures line { OnOk result ((line : List ℕ) × IsLineRead session.old.store infos.now range.now line × (text.new.items ≡ text.old.items ++ line)) }
    ensures unchanged { IsUnchanged session.old.store session.new.store }
    ensures recorded { (session.new.shards ≡ session.old.shards) × (session.new.history ≡ session.old.history) }
    ensures stop { IfErr result (IsStop (range_causes session.old.store.tells)) }
    ensures cause { HasCause session.old.store.faults session.new.store.faults (IsErrOf result Stop.Disk) }
{
    let info = &infos[(range.file - 1) as usize];
    let bytes = session.read_range(&info.hash, range.from, range.to)?;
    push_bytes_line(&bytes, text)
}
