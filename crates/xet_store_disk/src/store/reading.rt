//! Reading byte ranges of files.

ghost use Rattle.std.specs.Prelude.{◌≡◌, ◌≤◌, ◌<◌, ◌+◌, ◌-◌, ◌++◌, ℕ, List, true, length, min, None, IfErr, IfOk, IsErrOf, OnOk};
ghost use Rattle.std.specs.List.{concat};
ghost use Rattle.xet_folder.specs.Plan.{Resolves, part, plan_bytes, range};
ghost use Rattle.xet_folder.specs.Runs.{IsRunError};
ghost use Rattle.xet_folder.specs.Xorbs.{AreBacked};
ghost use Rattle.xet_store_disk.specs.Ranges.{IsOutside, IsRange, IsRangeError, IsUnchanged};
ghost use Rattle.xet_store_disk.specs.internal.Reading.{IsStoredListed, ResolvesListed, LiesListed};
ghost use Rattle.xet_store_disk.specs.Store.{plan_of};
ghost use Rattle.xet_io.specs.Frame.{Unchanged};

use crate::store::{Store, plan_in};
use indexmap::IndexMap;
use xet_folder::{Leaves, RunReader};
use xet_hash::{MerkleHash, Reason, StoreError};
use xet_io::Disk;
use xet_shard_format::FileDataSequenceEntry;

impl<D: Disk> Store<D> {
    /// Reads bytes FROM..TO, TO excluded, of a file. Only the chunks that the range touches are read. The
    /// empty file, whose hash is zero, has the range 0..0. `FileNotFound` is returned if and only if a hash
    /// other than zero has no plan, then `InvalidRange` if and only if the range is reversed or passes the
    /// file's end. `Io(Disk)` is returned only if the disk failed, `MalformedData(XorbText)` only on a disk
    /// that is not observable. Any other error is `OutOfMemory`.
    pub fn read_range(
        &mut self,
        hash: &MerkleHash,
        from: u64,
        to: u64,
    ) -> Result<Vec<u8>, StoreError>
        ensures range { self.old.tells ≡ true → IfOk result (λ bytes. IsRange self.old hash.now from to bytes.items) }
        ensures length { IfOk result (λ bytes. length bytes.items ≡ to - from) }
        ensures missing { plan_of self.old.records hash.now ≡ None → IsErrOf result StoreError.FileNotFound }
        ensures outside { IsOutside self.old hash.now from to → IsErrOf result StoreError.InvalidRange }
        ensures refused { IfErr result (IsRangeError self.old hash.now from to self.new.faults) }
        ensures unchanged { IsUnchanged self.old self.new }
    {
        let Some(plan) = plan_in(&self.records, hash) else {
            return Err(StoreError::FileNotFound);
        };
        if from > to || to > plan.length() {
            return Err(StoreError::InvalidRange);
        }
        let mut reader = RunReader::with_capacity(self.alloc, (to - from) as usize)?;
        let folder = self.folder.as_str();
        let (before, rest) = plan.rest(from);
        read_plan(
            &mut self.disk,
            folder,
            &self.xorbs,
            rest,
            from - before,
            to - before,
            &mut reader,
        )?;
        Ok(reader.into_bytes())
    }
}

/// Appends bytes FROM..TO, TO excluded, of the chunks to which a plan resolves.
fn read_plan<D: Disk>(
    disk: &mut D,
    folder: &str,
    xorbs: &IndexMap<MerkleHash, Leaves>,
    plan: &[FileDataSequenceEntry],
    from: u64,
    to: u64,
    reader: &mut RunReader,
) -> Result<(), StoreError>
    requires resolves { ResolvesListed xorbs.now.entries plan.now }
    requires order { from ≤ to }
    requires within { to ≤ plan_bytes plan.now }
    ensures range { D.tells disk.old ≡ true → OnOk result ((chunks : List (List ℕ)) → Resolves (IsStoredListed (D.files disk.old) folder.now xorbs.now.entries) length plan.now chunks → reader.new ≡ reader.old ++ range (concat chunks) from to) }
    ensures len { OnOk result (length reader.new ≡ length reader.old + (to - from)) }
    ensures refused { IfErr result (IsRunError ((D.tells disk.old ≡ true) × AreBacked (D.files disk.old) folder.now xorbs.now.entries) (D.faults disk.old) (D.faults disk.new)) }
    ensures frame { Unchanged D.files D.tells D.faults disk.old disk.new }
{
    let mut from = from;
    let mut to = to;
    for segment in plan {
        if from >= to {
            return Ok(());
        }
        read_segment(disk, folder, xorbs, segment, from, to, reader)?;
        let size = u64::from(segment.unpacked_segment_bytes);
        from = from.saturating_sub(size);
        to = to.saturating_sub(size);
    }
    Ok(())
}

/// Appends bytes FROM..TO, TO excluded, of a segment's chunks, as far as the segment has them.
fn read_segment<D: Disk>(
    disk: &mut D,
    folder: &str,
    xorbs: &IndexMap<MerkleHash, Leaves>,
    segment: &FileDataSequenceEntry,
    from: u64,
    to: u64,
    reader: &mut RunReader,
) -> Result<(), StoreError>
    requires { LiesListed xorbs.now.entries segment.now }
    ensures range { D.tells disk.old ≡ true → OnOk result ((chunks : List (List ℕ)) → IsStoredListed (D.files disk.old) folder.now xorbs.now.entries segment.now.xorb_hash chunks → reader.new ≡ reader.old ++ range (concat (part segment.now chunks)) from to) }
    ensures len { OnOk result (length reader.new ≡ length reader.old + (min to segment.now.unpacked_segment_bytes - min from segment.now.unpacked_segment_bytes)) }
    ensures refused { IfErr result (IsRunError ((D.tells disk.old ≡ true) × AreBacked (D.files disk.old) folder.now xorbs.now.entries) (D.faults disk.old) (D.faults disk.new)) }
    ensures frame { Unchanged D.files D.tells D.faults disk.old disk.new }
{
    let end = to.min(u64::from(segment.unpacked_segment_bytes));
    if from >= end {
        return Ok(());
    }
    let Some(leaves) = xorbs.get(&segment.xorb_hash) else {
        return Err(StoreError::MalformedData(Reason::XorbText));
    };
    reader.read_run(disk, folder, segment, leaves, from, end)
}
