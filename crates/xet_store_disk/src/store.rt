//! A session: xorbs and shards in a folder of a disk, and the reconstruction plans of files over them.

ghost use Rattle.std.specs.Prelude.{◌≡◌, length, IfOk, IsOkUnless};
ghost use Rattle.std.specs.Option.{option_map};
ghost use Rattle.xet_folder.specs.Xorbs.{found};
ghost use Rattle.xet_store_disk.specs.Store.{Differ, recorded_files, plan_of};

mod adding;
mod asking;
mod flushing;
mod opening;
mod reading;

use indexmap::IndexMap;
use std::alloc::Global;
use std::marker::Model;
use std::mem;
use xet_base::Text;
use xet_cut::Limits;
use xet_folder::{Leaves, Plan, RecordedFile};
use xet_hash::{MerkleHash, StoreError};
use xet_io::Disk;
use xet_shard::MDBInMemoryShard;
use xet_shard_format::{FileDataSequenceEntry, MDBFileInfo};

/// A store of files in a folder of a disk, open. Contracts see a `State`.
#[derive(Drop)]
pub struct Store<D: Disk> {
    disk: D,
    alloc: Global,
    folder: Text,
    limits: Limits,
    /// The time of opening, in seconds since 1970.
    opened: u64,
    /// The hashes and lengths of each listed xorb's chunks.
    xorbs: IndexMap<MerkleHash, Leaves>,
    /// The record of each recorded file.
    records: IndexMap<MerkleHash, RecordedFile>,
    /// The hashes of the registered shards.
    shards: Vec<MerkleHash>,
    /// What is recorded, but in no shard on the disk yet.
    pending: MDBInMemoryShard,
    /// The buffer of the last xorb's encoding, for the next one.
    buffer: Vec<u8>,
}

impl<D: Disk> Model for Store<D> {
    ghost use Rattle.xet_store_disk.specs.Coding.{state_code};
    ghost use Rattle.xet_store_disk.specs.Store.{Sound, State, state};

    ghost Value = { State };

    ghost coded = { state_code };

    ghost view = { λ s. state (D.tells s.disk) (D.files s.disk) (D.faults s.disk) s.folder s.limits s.opened s.xorbs.entries s.records.entries s.shards.items s.pending };

    ghost invariant = { λ s. Sound (state (D.tells s.disk) (D.files s.disk) (D.faults s.disk) s.folder s.limits s.opened s.xorbs.entries s.records.entries s.shards.items s.pending) };
}

impl<D: Disk> Store<D> {
    ghost use Rattle.xet_store_disk.specs.Store.{Sound};

    /// Proof aid without effect: makes the session invariant available to the caller.
    pub fn recall_invariant(&self)
        ensures { Sound self.now }
    {
        let _ = &self.xorbs;
    }

    /// The limits that were passed to `open`.
    pub fn limits(&self) -> &Limits
        ensures { result.now ≡ self.now.limits }
    {
        &self.limits
    }

    /// The number of listed xorbs.
    pub fn xorb_count(&self) -> u64
        ensures { result ≡ length self.now.xorbs }
    {
        self.xorbs.len() as u64
    }

    /// The number of registered shards.
    pub fn shard_count(&self) -> u64
        ensures { result ≡ length self.now.shards }
    {
        self.shards.len() as u64
    }

    /// The hashes of the registered shards, in order of registration.
    pub fn shards(&self) -> &[MerkleHash]
        ensures { result.now ≡ self.now.shards }
    {
        &self.shards
    }

    /// The hashes and lengths of a listed xorb's chunks; none if no xorb of this hash is listed.
    pub fn xorb(&self, hash: &MerkleHash) -> Option<&Leaves>
        ensures { option_map (λ leaves. leaves.now) result ≡ found self.now.xorbs hash.now }
    {
        self.xorbs.get(hash)
    }

    /// The hashes and lengths of each listed xorb's chunks.
    pub fn xorbs(&self) -> &IndexMap<MerkleHash, Leaves>
        ensures { result.now.entries ≡ self.now.xorbs }
    {
        &self.xorbs
    }

    /// What is recorded, but in no shard on the disk yet.
    pub fn pending(&self) -> &MDBInMemoryShard
        ensures { result.now ≡ self.now.pending }
    {
        &self.pending
    }

    /// The segments of a file's reconstruction plan; none if the file is not recorded. The empty file, whose
    /// hash is zero, has the empty plan. The only error is `OutOfMemory`.
    pub fn plan(
        &self,
        alloc: Global,
        hash: &MerkleHash,
    ) -> Result<Option<Vec<FileDataSequenceEntry>>, StoreError>
        ensures plan { IfOk result (λ plan. option_map (λ segments. segments.items) plan ≡ plan_of self.now.records hash.now) }
        ensures memory { IsOkUnless result StoreError.OutOfMemory }
    {
        match plan_in(&self.records, hash) {
            Some(plan) => Ok(Some(Vec::from_slice(alloc, plan.segments())?)),
            None => Ok(None),
        }
    }

    /// The record of a file: its plan, its range hashes and its SHA-256; none if the file is not recorded.
    pub fn record(&self, hash: &MerkleHash) -> Option<&MDBFileInfo>
        ensures { option_map (λ file. file.now) result ≡ found self.now.records hash.now }
    {
        match self.records.get(hash) {
            Some(record) => Some(record.file()),
            None => None,
        }
    }

    /// The hash and the length in bytes of each recorded file, in order of recording, each hash once. The
    /// empty file is never recorded. The only error is `OutOfMemory`.
    pub fn files(&self, alloc: Global) -> Result<Vec<(MerkleHash, u64)>, StoreError>
        ensures files { IfOk result (λ files. files.items ≡ recorded_files self.now.records) }
        ensures differ { IfOk result (λ files. Differ files.items) }
        ensures memory { IsOkUnless result StoreError.OutOfMemory }
    {
        let mut files = Vec::with_capacity(alloc, self.records.len())?;
        for (hash, record) in &self.records {
            files.push((*hash, record.plan().length()))?;
        }
        Ok(files)
    }

    /// Returns the buffer of the last xorb's encoding, for the next one. The store is unchanged.
    pub fn take_buffer(&mut self) -> Vec<u8>
        ensures { self.new ≡ self.old }
    {
        mem::replace(&mut self.buffer, Vec::new(self.alloc))
    }

    /// Retains the buffer of an encoding for the next one. The store is unchanged.
    fn retain_buffer(&mut self, buffer: Vec<u8>)
        ensures { self.new ≡ self.old }
    {
        self.buffer = buffer;
    }

    /// Closes the session and returns the disk. What is pending is dropped.
    pub fn into_disk(self) -> D
        ensures tells { D.tells result ≡ self.tells }
        ensures files { D.files result ≡ self.files }
        ensures faults { D.faults result ≡ self.faults }
    {
        let Store {
            disk,
            alloc: _,
            folder: _,
            limits: _,
            opened: _,
            xorbs: _,
            records: _,
            shards: _,
            pending: _,
            buffer: _,
        } = self;
        disk
    }
}

/// The reconstruction plan of a file; none if it is not recorded. The empty file has the empty plan.
fn plan_in<'a>(
    records: &'a IndexMap<MerkleHash, RecordedFile>,
    hash: &MerkleHash,
) -> Option<Plan<'a>>
    ensures { result ≡ plan_of records.now.entries hash.now }
{
    if *hash == MerkleHash::default() {
        return Some(Plan::empty());
    }
    match records.get(hash) {
        Some(record) => Some(record.plan()),
        None => None,
    }
}
