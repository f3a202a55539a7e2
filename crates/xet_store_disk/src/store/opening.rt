//! Opening a store.

ghost use Rattle.std.specs.Prelude.{◌≡◌, ◌≤◌, true, false, length, IfErr, IfOk, OnOk};
ghost use Rattle.std.specs.List.{AllByRecursion};
ghost use Rattle.xet_codec.specs.Stops.{HasDiskReason};
ghost use Rattle.xet_folder.specs.Contents.{HasContents, IsRecord, IsFolderError, max_shards};
ghost use Rattle.xet_folder.specs.Pruning.{IsPruned, OnlyPrunes};
ghost use Rattle.xet_shard_file.specs.Names.{IsHash};
ghost use Rattle.xet_folder.specs.Xorbs.{AreBacked};
ghost use Rattle.xet_io.specs.Frame.{Stays};
ghost use Rattle.xet_store_disk.specs.Opening.{IsOpened, contents_of};

use crate::store::Store;
use std::alloc::Global;
use xet_base::Text;
use xet_cut::Limits;
use xet_folder::{Contents, FolderError, admit_folder, prune_folder};
use xet_hash::{Refused, StoreError};
use xet_io::Disk;
use xet_shard::MDBInMemoryShard;

impl<D: Disk> Store<D> {
    /// Opens the folder of a disk at a time, in seconds since 1970. With `prune`, the expired shards that may be
    /// deleted are removed first: those whose expiry was at least `expiry_buffer` seconds ago. No other file
    /// changes. The folder is validated, its shards that are unexpired then are registered, keyed ones too, and
    /// the files are the first record of each hash. An error returns the disk, from which some of the shards
    /// that may be deleted may be gone, with `prune`. It is that of the first check that fails, with the file
    /// name of the shard; if none fails, `TooLarge(Shards)` if and only if more than 2^32 - 1 shards are
    /// unexpired; `OutOfMemory`; or `Io(Disk)`, which is returned only if the disk failed.
    pub fn open(
        alloc: Global,
        mut disk: D,
        folder: &str,
        limits: Limits,
        now: u64,
        prune: bool,
    ) -> Result<Store<D>, Refused<D>>
        ensures opened { IfOk result (IsOpened (D.tells disk) prune (D.files disk) folder.now limits now) }
        ensures contents { D.tells disk ≡ true → IfOk result (λ store. HasContents store.files folder.now now (contents_of store)) }
        ensures few { IfOk result (λ store. length store.shards ≤ max_shards) }
        ensures later { IfOk result (λ store. D.faults disk ≤ store.faults) }
        ensures tells { IfErr result (λ refused. D.tells refused.disk ≡ D.tells disk) }
        ensures unpruned { prune ≡ false → IfErr result (λ refused. D.files refused.disk ≡ D.files disk) }
        ensures only { D.tells disk ≡ true → IfErr result (λ refused. OnlyPrunes (D.files disk) folder.now limits.expiry_buffer now (D.files refused.disk)) }
        ensures counted { IfErr result (λ refused. D.faults disk ≤ D.faults refused.disk) }
        ensures refused { IfErr result (λ refused. IsFolderError (D.tells disk) (D.files refused.disk) folder.now now (D.faults disk) (D.faults refused.disk) refused.error refused.name) }
    {
        let text = match String::from_str(alloc, folder) {
            Ok(text) => Text::new(text),
            Err(_) => {
                return Err(Refused {
                    disk,
                    error: StoreError::OutOfMemory,
                    name: None,
                });
            }
        };
        let buffer = limits.expiry_buffer();
        match admit_pruned(&mut disk, alloc, folder, buffer, now, prune) {
            Ok(contents) => Ok(Store::of_folder(alloc, disk, text, limits, now, contents)),
            Err(folder_error) => Err(Refused {
                disk,
                error: folder_error.error,
                name: folder_error.name,
            }),
        }
    }

    /// A session over the contents of a folder, opened at a time in seconds since 1970. It allocates no
    /// memory.
    fn of_folder(
        alloc: Global,
        disk: D,
        folder: Text,
        limits: Limits,
        now: u64,
        contents: Contents,
    ) -> Store<D>
        requires contents { D.tells disk ≡ true → HasContents (D.files disk) folder now contents }
        requires backed { D.tells disk ≡ true → AreBacked (D.files disk) folder contents.xorbs }
        requires recorded { AllByRecursion (IsRecord contents.xorbs) contents.records }
        requires hashes { AllByRecursion IsHash contents.shards }
        ensures opened { IsOpened (D.tells disk) false (D.files disk) folder limits now result }
        ensures contents { contents_of result ≡ contents }
        ensures faults { result.faults ≡ D.faults disk }
    {
        Store {
            disk,
            alloc,
            folder,
            limits,
            opened: now,
            xorbs: contents.xorbs.into_rows(),
            records: contents.records.into_rows(),
            shards: contents.shards.into_vec(),
            pending: MDBInMemoryShard::new(alloc),
            buffer: Vec::new(alloc),
        }
    }
}

/// Validates a folder and returns its contents. If it is pruned, the expired shards that may be deleted, from
/// `buffer` seconds after their expiry on, are removed first.
fn admit_pruned<D: Disk>(
    disk: &mut D,
    alloc: Global,
    folder: &str,
    buffer: u64,
    now: u64,
    prune: bool,
) -> Result<Contents, FolderError>
    ensures contents { D.tells disk.old ≡ true → IfOk result (HasContents (D.files disk.new) folder.now now) }
    ensures backed { D.tells disk.old ≡ true → IfOk result (λ c. AreBacked (D.files disk.new) folder.now c.xorbs) }
    ensures recorded { IfOk result (λ c. AllByRecursion (IsRecord c.xorbs) c.records) }
    ensures hashes { IfOk result (λ c. AllByRecursion IsHash c.shards) }
    ensures few { IfOk result (λ c. length c.shards ≤ max_shards) }
    ensures refused { IfErr result (λ u. IsFolderError (D.tells disk.old) (D.files disk.new) folder.now now (D.faults disk.old) (D.faults disk.new) u.error u.name) }
    ensures same { prune ≡ false → D.files disk.new ≡ D.files disk.old }
    ensures pruned { D.tells disk.old ≡ true → prune ≡ true → OnOk result (IsPruned (D.files disk.old) folder.now buffer now (D.files disk.new)) }
    ensures only { D.tells disk.old ≡ true → OnlyPrunes (D.files disk.old) folder.now buffer now (D.files disk.new) }
    ensures frame { Stays D.tells D.faults disk.old disk.new }
{
    match prune_if(disk, alloc, folder, buffer, now, prune) {
        Ok(()) => admit_folder(disk, alloc, folder, now),
        Err(error) => Err(FolderError { error, name: None }),
    }
}

/// Removes the expired shards of a folder that may be deleted, if it is pruned.
fn prune_if<D: Disk>(
    disk: &mut D,
    alloc: Global,
    folder: &str,
    buffer: u64,
    now: u64,
    prune: bool,
) -> Result<(), StoreError>
    ensures same { prune ≡ false → D.files disk.new ≡ D.files disk.old }
    ensures pruned { D.tells disk.old ≡ true → prune ≡ true → OnOk result (IsPruned (D.files disk.old) folder.now buffer now (D.files disk.new)) }
    ensures only { D.tells disk.old ≡ true → OnlyPrunes (D.files disk.old) folder.now buffer now (D.files disk.new) }
    ensures frame { Stays D.tells D.faults disk.old disk.new }
    ensures reason { IfErr result (HasDiskReason (D.faults disk.old) (D.faults disk.new)) }
{
    if prune {
        prune_folder(disk, alloc, folder, buffer, now)
    } else {
        Ok(())
    }
}
