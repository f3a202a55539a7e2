//! The command `pack`.

ghost use Rattle.std.specs.Prelude.{Some, ◌≡◌, ◌≤◌, ◌^◌, List, ℕ, true, [], length, IfErr, IfOk, OnOk, IsErrOf};
ghost use Rattle.xet_io.specs.Disk.{entry_at as get};
ghost use Rattle.xet_io.specs.Frame.{Called};
ghost use Rattle.xet_folder.specs.Contents.{HasTooMany};
ghost use Rattle.xet_folder.specs.Names.{IsForeign};
ghost use Rattle.xet_program.specs.Answers.{AreSeparate};
ghost use Rattle.xet_program.specs.Early.{max_input};
ghost use Rattle.xet_program.specs.Tasks.{IsIdle, store_folder};
ghost use Rattle.xet_program.specs.Allowed.{are_short};
ghost use Rattle.xet_program.specs.internal.Answered.{AnsweredByInput};
ghost use Rattle.xet_program.specs.Lines.{files_of};
ghost use Rattle.xet_program.specs.internal.Parsing.{ForLines, IsSaid, are_good};
ghost use Rattle.xet_program.specs.Words.Command.{Pack};
ghost use Rattle.xet_program.specs.Ending.{CanOpen};
ghost use Rattle.xet_folder.specs.declared.contents.Contents.{Contents};
ghost use Rattle.xet_program.specs.Report.{IsReport};
ghost use Rattle.xet_program.specs.internal.Stops.{IsStop, answer_outcome, reading_causes, storing_causes};
ghost use Rattle.xet_program.specs.Stored.{AreStored, IsAdmittedAt, KeepsFolder, KeepsListed};

use crate::ending::Stop;
use crate::lines::{PackLines, parse};
use crate::opening::{FOLDER, not_opened};
use crate::session::report_lines;
use std::alloc::Global;
use std::marker::{Send, Sync};
use std::sync::Wait;
use std::thread::Threads;
use xet_cut::Limits;
use xet_io::{Disk, Source, read_all};
use xet_store::Store;

/// The maximum length of an input, in bytes.
pub const MAX_INPUT: usize = 1 << 31;

/// The maximum length of one read of the input, in bytes.
pub const MAX_READ: usize = 1 << 31;

/// Reads an input to its end, stores the files of its lines in the folder `store` of a disk, by so many workers, and
/// returns the disk and the report of files and ranges, or why it stops. `now` is the time in seconds since 1970.
pub fn pack<I: Source, D: Disk + Send, R: Threads + Wait + Sync>(
    rt: &R,
    alloc: Global,
    limits: &Limits,
    workers: u32,
    input: &mut I,
    disk: D,
    now: u64,
) -> (D, Result<Vec<u8>, Stop>)
    requires long { max_input ≤ limits.now.max_source_bytes }
    requires workers { (1 ≤ workers) × (workers ≤ 256) }
    ensures answered { AnsweredByInput (Pack limits.now workers) (I.tells input.old) (I.left input.old) now (D.tells disk) (D.files disk) (D.files result.0) (answer_outcome result.1) }
    ensures read { I.tells input.old ≡ true → OnOk result.1 (I.left input.new ≡ []) }
    ensures input { Called I.tells I.faults input.old input.new (IsErrOf result.1 Stop.Input) }
    ensures disk { Called D.tells D.faults disk result.0 (IsErrOf result.1 Stop.Disk) }
{
    match read_lines(alloc, input) {
        Ok(lines) => store_lines(rt, alloc, limits, workers, &lines, disk, now),
        Err(stop) => (disk, Err(stop)),
    }
}

/// Reads an input to its end and parses its lines. All ranges of the result name bytes of its files.
fn read_lines<I: Source>(alloc: Global, input: &mut I) -> Result<PackLines, Stop>
    ensures said { I.tells input.old ≡ true → IfOk result (IsSaid (I.left input.old)) }
    ensures few { IfOk result (λ lines. length lines.files ≤ 2 ^ 20) }
    ensures good { IfOk result (λ lines. are_good lines ≡ true) }
    ensures bytes { IfOk result (λ lines. (bytes : List ℕ) × IsSaid bytes lines) }
    ensures stop { IfErr result (IsStop (reading_causes (I.tells input.old) (I.left input.old))) }
    ensures read { I.tells input.old ≡ true → OnOk result (I.left input.new ≡ []) }
    ensures frame { Called I.tells I.faults input.old input.new (IsErrOf result Stop.Input) }
{
    let bytes = read_all(alloc, input, MAX_READ, MAX_INPUT)?;
    let lines = parse(alloc, &bytes)?;
    if !lines.are_good() {
        return Err(Stop::NotFound);
    }
    Ok(lines)
}

/// Stores the files of some lines, and returns the disk and the report of files and ranges, or why it stops.
fn store_lines<D: Disk + Send, R: Threads + Wait + Sync>(
    rt: &R,
    alloc: Global,
    limits: &Limits,
    workers: u32,
    lines: &PackLines,
    disk: D,
    now: u64,
) -> (D, Result<Vec<u8>, Stop>)
    requires few { length lines.now.files ≤ 2 ^ 20 }
    requires good { are_good lines.now ≡ true }
    requires short { are_short limits.now lines.now.files ≡ true }
    requires workers { (1 ≤ workers) × (workers ≤ 256) }
    ensures valid { OnOk result.1 ((contents : Contents) × (D.tells disk ≡ true → CanOpen (D.files disk) now contents)) }
    ensures report { IfOk result.1 (λ text. ForLines lines.now (λ said. IsReport (AreSeparate (D.tells disk) (D.files result.0) now limits.now (files_of said)) limits.now said text.items)) }
    ensures stop { IfErr result.1 (IsStop (storing_causes (D.tells disk) limits.now lines.now now (D.files disk) (D.files result.0))) }
    ensures stored { D.tells disk ≡ true → OnOk result.1 (AreStored limits.now lines.now.files now (D.files disk) (D.files result.0)) }
    ensures listed { D.tells disk ≡ true → KeepsListed now (D.files disk) (D.files result.0) }
    ensures keeps { D.tells disk ≡ true → KeepsFolder now (D.files disk) (D.files result.0) }
    ensures refused { D.tells disk ≡ true → (IsAdmittedAt now (D.files disk) → ⊥) → D.files result.0 ≡ D.files disk }
    ensures overfull { D.tells disk ≡ true → HasTooMany (D.files disk) store_folder now → D.files result.0 ≡ D.files disk }
    ensures kept { D.tells disk ≡ true → IsIdle (Some (Pack limits.now workers)) (answer_outcome result.1).status → D.files result.0 ≡ D.files disk }
    ensures foreign { D.tells disk ≡ true → (name : List ℕ) → IsForeign store_folder name → get (D.files result.0) name ≡ get (D.files disk) name }
    ensures frame { Called D.tells D.faults disk result.0 (IsErrOf result.1 Stop.Disk) }
{
    match Store::open(alloc, disk, FOLDER, *limits, now, false) {
        Ok(session) => {
            session.recall_sound();
            let (session, answer) = report_lines(rt, alloc, session, lines, workers);
            session.recall_sound();
            session.recall_invariant();
            let disk = session.into_disk();
            (disk, answer)
        }
        Err(refused) => not_opened(refused),
    }
}
