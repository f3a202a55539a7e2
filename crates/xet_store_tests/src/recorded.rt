//! A recorded store behind calls that have no contract.

ghost use Rattle.std.specs.Prelude.{IfOk};
ghost use Rattle.xet_shard_format.specs.Records.{IsFile};

use crate::files::{record, xorb, zero_xorb};
use std::alloc::Global;
use xet_cut::{LimitSettings, Limits};
use xet_hash::{MerkleHash, StoreError};
use xet_history::{Entry, StepKind};
use xet_io::MemoryDisk;
use xet_shard_format::MDBFileInfo;
use xet_store::Store;

/// A store in the folder `store` of a disk in memory.
#[derive(Drop)]
pub struct Recorded {
    alloc: Global,
    store: Store<MemoryDisk>,
}

/// The letters of at most eight entries of a history, and blanks after them.
pub type Letters = [char; 8];

/// The letters of a history without entries.
pub const NONE: Letters = [' '; 8];

/// The limits of a store whose shards have at most this target length if they can be shorter.
pub fn limits(shard_target: u64) -> Result<Limits, StoreError> {
    Limits::new(LimitSettings {
        shard_target,
        ..LimitSettings::shown([0; 256])
    })
}

impl Recorded {
    /// Opens the folder of a disk.
    pub fn open(alloc: Global, disk: MemoryDisk, limits: Limits) -> Result<Recorded, StoreError> {
        match Store::open(alloc, disk, "store", limits, 1_000, false) {
            Ok(store) => Ok(Recorded { alloc, store }),
            Err(refused) => Err(refused.error),
        }
    }

    /// Registers the xorb.
    pub fn register(&mut self) -> Result<bool, StoreError> {
        let xorb = xorb(self.alloc, self.store.limits())?;
        self.store.register_xorb(xorb, &[])
    }

    /// Registers the xorb of the zeros.
    pub fn register_zeros(&mut self) -> Result<bool, StoreError> {
        let xorb = zero_xorb(self.alloc, self.store.limits())?;
        self.store.register_xorb(xorb, &[])
    }

    /// The run of a query: how many chunks, from which index on, up to which, and how many bytes.
    pub fn query(
        &mut self,
        hashes: &[MerkleHash],
    ) -> Result<Option<(usize, u32, u32, u32)>, StoreError> {
        match self.store.query(hashes)? {
            Some((count, segment)) => Ok(Some((
                count,
                segment.chunk_index_start,
                segment.chunk_index_end,
                segment.unpacked_segment_bytes,
            ))),
            None => Ok(None),
        }
    }

    /// The number of hashes that the last entry states, if it is that of a query.
    pub fn stated(&self) -> Option<usize> {
        match self.store.history().last() {
            Some(Entry::Query { hashes, .. }) => Some(hashes.as_slice().len()),
            _ => None,
        }
    }

    /// Records the file.
    pub fn complete(&mut self) -> Result<bool, StoreError> {
        let file = self.file()?;
        self.store.complete_file(file)
    }

    /// Whether the file may be recorded.
    pub fn can_complete(&self) -> Result<bool, StoreError> {
        self.store.can_complete(&self.file()?)
    }

    /// The record of the file.
    fn file(&self) -> Result<MDBFileInfo, StoreError>
        ensures { IfOk result IsFile }
    {
        let xorb = xorb(self.alloc, self.store.limits())?;
        record(self.alloc, xorb.hash())
    }

    /// Writes a shard of what is pending. Returns whether anything was.
    pub fn flush(&mut self) -> Result<bool, StoreError> {
        Ok(self.store.flush()?.is_some())
    }

    /// Bytes 2..6 of the only file.
    pub fn part(&mut self) -> Result<[u8; 4], StoreError> {
        let file = self.first_file()?;
        match self.store.read_range(&file, 2, 6)?.as_slice() {
            [a, b, c, d] => Ok([*a, *b, *c, *d]),
            _ => Err(StoreError::InvalidRange),
        }
    }

    /// The hash of the first file.
    fn first_file(&self) -> Result<MerkleHash, StoreError> {
        match self.store.files(self.alloc)?.first() {
            Some((hash, _)) => Ok(*hash),
            None => Err(StoreError::FileNotFound),
        }
    }

    /// The numbers of listed xorbs, of recorded files and of registered shards.
    pub fn counts(&self) -> Result<[u64; 3], StoreError> {
        let files = self.store.files(self.alloc)?.len() as u64;
        Ok([self.store.xorb_count(), files, self.store.shard_count()])
    }

    /// For each entry its letter, in capitals if something was added.
    pub fn history(&self) -> Letters {
        let mut letters = NONE;
        for (i, entry) in self.store.history().iter().enumerate() {
            if let Some(place) = letters.get_mut(i) {
                *place = letter(entry);
            }
        }
        letters
    }

    /// Closes the store and returns the disk.
    pub fn into_disk(self) -> MemoryDisk {
        self.store.into_disk()
    }

    /// Closes the store.
    pub fn close(self) {
        let _disk = self.store.into_disk();
    }
}

/// The letter of an entry.
fn letter(entry: &Entry) -> char {
    match entry {
        Entry::Query { .. } => 'Q',
        Entry::Register { added: true, .. } => 'R',
        Entry::Register { .. } => 'r',
        Entry::Complete { added: true, .. } => 'C',
        Entry::Complete { .. } => 'c',
        Entry::Flush { .. } => 'F',
        Entry::Fault { kind, .. } => match kind {
            StepKind::Flush => '!',
            _ => '?',
        },
    }
}
