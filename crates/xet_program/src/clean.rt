//! The command `clean`.

ghost use Rattle.std.specs.Prelude.{◌≡◌, ◌≤◌, ◌<◌, ◌+◌, ◌-◌, ◌^◌, ℕ, List, true, [], Some, None, length, map, string_bytes, vec_capacity, Any, IfErr, IfOk, OnOk, IsErrOf};
ghost use Rattle.std.specs.FinMap.{get};
ghost use Rattle.xet_io.specs.Disk.{entry_at};
ghost use Rattle.xet_folder.specs.Contents.{HasContents, HasTooMany};
ghost use Rattle.xet_folder.specs.Names.{IsForeign};
ghost use Rattle.xet_io.specs.Faults.{HasCause};
ghost use Rattle.xet_io.specs.Frame.{Called, Queried};
ghost use Rattle.xet_shard.specs.Held.{nothing};
ghost use Rattle.xet_store_disk.specs.Cleaning.{Keeps};
ghost use Rattle.xet_store_disk.specs.Opening.{contents_of};
ghost use Rattle.xet_program.specs.Stored.{IsAdmittedAt, KeepsFolder, KeepsListed};
ghost use Rattle.xet_program.specs.Tasks.{IsIdle, store_folder};
ghost use Rattle.xet_program.specs.internal.Cleaned.{AreOpened, IsCleanText, IsCleaned};
ghost use Rattle.xet_program.specs.internal.Stops.{ForValid, IsStop, answer_outcome, cleaning_store_causes, naming_causes, opening_causes};
ghost use Rattle.xet_program.specs.Words.Command.{Clean};

use crate::ending::Stop;
use crate::opening::{FOLDER, not_opened};
use crate::session::{clean_sources, report_all};
use crate::words::default_limits;
use std::alloc::Global;
use std::marker::{Send, Sync};
use std::sync::Wait;
use std::thread::Threads;
use xet_io::{Disk, Inputs, Refusal};
use xet_store::Store;

/// Stores the files with these names in the folder `store` of a disk, and returns the disk and the line of each, or
/// why it stops. Every file that was opened is closed. `now` is the time in seconds since 1970.
pub fn clean<D: Disk + Send, F: Inputs, R: Threads + Wait + Sync>(
    rt: &R,
    alloc: Global,
    names: &[String],
    disk: D,
    inputs: &mut F,
    now: u64,
) -> (D, Result<Vec<u8>, Stop>)
    requires { length names.now ≤ 2 ^ 20 }
    ensures cleaned { IfOk result.1 (λ text. ForValid (D.tells disk) (D.files disk) now (λ contents. IsCleanText (F.tells inputs.old) (F.files inputs.old) (map string_bytes names.now) (D.tells disk) (D.files disk) (D.files result.0) now text.items)) }
    ensures stop { IfErr result.1 (IsStop (cleaning_store_causes (F.tells inputs.old) (F.files inputs.old) (map string_bytes names.now) (D.tells disk) now (D.files disk) (D.files result.0))) }
    ensures listed { D.tells disk ≡ true → KeepsListed now (D.files disk) (D.files result.0) }
    ensures keeps { D.tells disk ≡ true → KeepsFolder now (D.files disk) (D.files result.0) }
    ensures refused { D.tells disk ≡ true → (IsAdmittedAt now (D.files disk) → ⊥) → D.files result.0 ≡ D.files disk }
    ensures overfull { D.tells disk ≡ true → HasTooMany (D.files disk) store_folder now → D.files result.0 ≡ D.files disk }
    ensures absent { F.tells inputs.old ≡ true → D.tells disk ≡ true → Any (λ name. get (F.files inputs.old) name ≡ None) (map string_bytes names.now) → D.files result.0 ≡ D.files disk }
    ensures kept { D.tells disk ≡ true → IsIdle (Some (Clean (map string_bytes names.now))) (answer_outcome result.1).status → D.files result.0 ≡ D.files disk }
    ensures foreign { D.tells disk ≡ true → (name : List ℕ) → IsForeign store_folder name → entry_at (D.files result.0) name ≡ entry_at (D.files disk) name }
    ensures disk { Called D.tells D.faults disk result.0 (IsErrOf result.1 Stop.Disk) }
    ensures inputs { Queried F.files F.tells F.faults inputs.old inputs.new (IsErrOf result.1 Stop.Input) }
    ensures closed { F.opened inputs.old + length names.now < 2 ^ 64 → F.opened inputs.new ≡ F.opened inputs.old }
{
    match Store::open(alloc, disk, FOLDER, default_limits(), now, false) {
        Ok(session) => {
            session.recall_sound();
            let (session, answer) = clean_names(rt, alloc, session, names, inputs);
            session.recall_sound();
            session.recall_invariant();
            let disk = session.into_disk();
            (disk, answer)
        }
        Err(refused) => not_opened(refused),
    }
}

/// Stores the files with these names in a session, and returns the line of each, or why it stops. Every file that
/// was opened is closed.
fn clean_names<D: Disk + Send, F: Inputs, R: Threads + Wait + Sync>(
    rt: &R,
    alloc: Global,
    session: Store<D>,
    names: &[String],
    inputs: &mut F,
) -> (Store<D>, Result<Vec<u8>, Stop>)
    requires count { length names.now ≤ 2 ^ 20 }
    requires folder { session.store.folder ≡ store_folder }
    requires fresh { session.store.pending ≡ nothing }
    requires contents { session.store.tells ≡ true → HasContents session.store.files session.store.folder session.store.opened (contents_of session.store) }
    ensures cleaned { IfOk result.1 (λ text. IsCleaned (F.tells inputs.old) (F.files inputs.old) (map string_bytes names.now) session.store result.0.store text.items) }
    ensures keeps { Keeps session.store result.0.store }
    ensures stop { IfErr result.1 (IsStop (naming_causes (F.tells inputs.old) (F.files inputs.old) (map string_bytes names.now) session result.0)) }
    ensures absent { F.tells inputs.old ≡ true → Any (λ name. get (F.files inputs.old) name ≡ None) (map string_bytes names.now) → result.0 ≡ session }
    ensures kept { IsErrOf result.1 Stop.NotFound → result.0 ≡ session }
    ensures cause { HasCause session.store.faults result.0.store.faults (IsErrOf result.1 Stop.Disk) }
    ensures inputs { Queried F.files F.tells F.faults inputs.old inputs.new (IsErrOf result.1 Stop.Input) }
    ensures closed { F.opened inputs.old + length names.now < 2 ^ 64 → F.opened inputs.new ≡ F.opened inputs.old }
{
    session.limits().recall_invariant();
    let (mut sources, opened) = open_all(alloc, inputs, names);
    match opened {
        Ok(()) => {
            let (session, cleaned) = clean_sources(rt, alloc, session, &mut sources, 1);
            session.recall_sound();
            close_all(inputs, sources);
            let (session, answer) = report_all(alloc, session, cleaned, &[]);
            session.recall_sound();
            session.recall_invariant();
            (session, answer)
        }
        Err(stop) => {
            close_all(inputs, sources);
            (session, Err(stop))
        }
    }
}

/// Opens the files with these names, in order. Returns those that were opened, and why it stopped at the next. All
/// memory is allocated before the first is opened.
fn open_all<F: Inputs>(
    alloc: Global,
    inputs: &mut F,
    names: &[String],
) -> (Vec<F::S>, Result<(), Stop>)
    ensures opened { OnOk result.1 (AreOpened (F.tells inputs.old) (F.files inputs.old) F.S.tells F.S.left F.S.faults (map string_bytes names.now) result.0.items) }
    ensures stop { IfErr result.1 (IsStop (opening_causes (F.tells inputs.old) (F.files inputs.old) (map string_bytes names.now))) }
    ensures inputs { Queried F.files F.tells F.faults inputs.old inputs.new (IsErrOf result.1 Stop.Input) }
    ensures count { F.opened inputs.old + length names.now < 2 ^ 64 → F.opened inputs.new ≡ F.opened inputs.old + length result.0.items }
{
    match Vec::with_capacity(alloc, names.len()) {
        Ok(sources) => {
            let mut sources = sources;
            let opened = push_all(inputs, names, &mut sources);
            (sources, opened)
        }
        Err(_) => (Vec::new(alloc), Err(Stop::OutOfMemory)),
    }
}

/// Opens the files with these names, in order, and appends those that were opened.
fn push_all<F: Inputs>(
    inputs: &mut F,
    names: &[String],
    sources: &mut Vec<F::S>,
) -> Result<(), Stop>
    requires empty { sources.old.items ≡ [] }
    requires room { length names.now ≤ vec_capacity sources.old }
    ensures opened { OnOk result (AreOpened (F.tells inputs.old) (F.files inputs.old) F.S.tells F.S.left F.S.faults (map string_bytes names.now) sources.new.items) }
    ensures stop { IfErr result (IsStop (opening_causes (F.tells inputs.old) (F.files inputs.old) (map string_bytes names.now))) }
    ensures inputs { Queried F.files F.tells F.faults inputs.old inputs.new (IsErrOf result Stop.Input) }
    ensures count { F.opened inputs.old + length names.now < 2 ^ 64 → F.opened inputs.new ≡ F.opened inputs.old + length sources.new.items }
{
    for name in names {
        match inputs.open(name.as_str()) {
            Ok(Some(source)) => sources.push_reserved(source),
            Ok(None) => return Err(Stop::NotFound),
            Err(Refusal::Failed) => return Err(Stop::Input),
            Err(Refusal::OutOfMemory) => return Err(Stop::OutOfMemory),
        }
    }
    Ok(())
}

/// Closes sources. The count of failures rises if one of them has failed.
fn close_all<F: Inputs>(inputs: &mut F, sources: Vec<F::S>)
    ensures count { F.opened inputs.new ≡ F.opened inputs.old - length sources.items }
    ensures inputs { Queried F.files F.tells F.faults inputs.old inputs.new (Any (λ s. 0 < F.S.faults s) sources.items) }
{
    let mut sources = sources;
    'sources: while let Some(source) = sources.pop() {
        inputs.close(source);
    }
}
