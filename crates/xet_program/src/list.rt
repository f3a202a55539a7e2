//! The command `list`.

ghost use Rattle.std.specs.Prelude.{◌≡◌, ◌++◌, IfErr, IfOk, OnOk, IsErrOf, IsOkUnless};
ghost use Rattle.std.specs.List.{flat_map};
ghost use Rattle.xet_io.specs.Frame.{Called};
ghost use Rattle.xet_store_disk.specs.Store.{Differ, recorded_files};
ghost use Rattle.xet_program.specs.Answers.{listed_line};
ghost use Rattle.xet_program.specs.internal.Stops.{ForValid, IsStop, folder_causes};

use crate::ending::Stop;
use crate::opening::{FOLDER, not_opened};
use crate::words::default_limits;
use std::alloc::Global;
use std::marker::Send;
use xet_hash::MerkleHash;
use xet_io::Disk;
use xet_store_disk::Store;

/// Returns the disk, and a line for each file of the store in the folder `store` of the disk, or why it stops.
/// `now` is the time in seconds since 1970.
pub fn list<D: Disk + Send>(alloc: Global, disk: D, now: u64) -> (D, Result<Vec<u8>, Stop>)
    ensures listed { IfOk result.1 (λ text. ForValid (D.tells disk) (D.files disk) now (λ contents. Differ (recorded_files contents.records) × (text.items ≡ flat_map listed_line (recorded_files contents.records)))) }
    ensures stop { IfErr result.1 (IsStop (folder_causes (D.tells disk) now (D.files disk))) }
    ensures same { D.files result.0 ≡ D.files disk }
    ensures frame { Called D.tells D.faults disk result.0 (IsErrOf result.1 Stop.Disk) }
{
    match Store::open(alloc, disk, FOLDER, default_limits(), now, false) {
        Ok(session) => {
            let answer = list_files(alloc, &session);
            (session.into_disk(), answer)
        }
        Err(refused) => not_opened(refused),
    }
}

/// The line of each recorded file of a session, in order. The only error is `OutOfMemory`.
fn list_files<D: Disk + Send>(alloc: Global, session: &Store<D>) -> Result<Vec<u8>, Stop>
    ensures text { IfOk result (λ text. text.items ≡ flat_map listed_line (recorded_files session.now.records)) }
    ensures differ { OnOk result (Differ (recorded_files session.now.records)) }
    ensures memory { IsOkUnless result Stop.OutOfMemory }
{
    let files = session.files(alloc)?;
    let mut text = Vec::new(alloc);
    for file in &files {
        push_line(alloc, file, &mut text)?;
    }
    Ok(text)
}

/// Appends the line of a file: its hash and its length.
fn push_line(alloc: Global, file: &(MerkleHash, u64), text: &mut Vec<u8>) -> Result<(), Stop>
    ensures line { OnOk result (text.new.items ≡ text.old.items ++ listed_line file.now) }
    ensures memory { IsOkUnless result Stop.OutOfMemory }
{
    let hash = file.0.hex(alloc)?;
    let length = file.1;
    let line = format!(in alloc; "{hash} {length}\n")?;
    text.extend_from_slice(line.as_bytes())?;
    Ok(())
}
