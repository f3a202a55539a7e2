//! A store behind calls that have no contract.

use std::alloc::Global;
use xet_clean::{Cleaned, Sha256Policy, clean_bytes, clean_files};
use xet_cut::{LimitSettings, Limits};
use xet_hash::{MerkleHash, Place, Refused, StoreError};
use xet_io::{Disk, FailingSource, MemoryDisk};
use xet_shard_format::FileDataSequenceEntry;
use xet_store::Store;
use xet_store_disk::XetFileInfo;

/// The time at which stores are opened.
pub const NOW: u64 = 1_000;

/// A store in the folder `store` of a disk in memory.
#[derive(Drop)]
pub struct Session {
    alloc: Global,
    store: Store<MemoryDisk>,
}

/// Why a folder was not opened: the error and the name of the shard, empty if there is none.
#[derive(Drop)]
pub struct Unopened {
    pub error: StoreError,
    pub name: String,
}

/// Chunks from 64 to 1,024 bytes that end as soon as they may, two chunks a xorb, and blocks of 1 KiB.
pub fn limits() -> Result<Limits, StoreError> {
    Limits::new(LimitSettings {
        target_chunk: 512,
        minimum_chunk: 64,
        maximum_chunk: 1024,
        cut_chunks: 2,
        block_bytes: 1024,
        max_source_bytes: 1 << 30,
        ..LimitSettings::shown([0; 256])
    })
}

impl Session {
    /// Opens the folder of a disk.
    pub fn open(alloc: Global, disk: MemoryDisk) -> Result<Session, StoreError> {
        match opened(alloc, disk) {
            Ok(store) => Ok(Session { alloc, store }),
            Err(refused) => Err(error_of(refused)),
        }
    }

    /// Opens the folder of a new disk.
    pub fn new(alloc: Global) -> Result<Session, StoreError> {
        Session::open(alloc, MemoryDisk::new(alloc))
    }

    /// Cleans a file of these bytes. Returns the session, whatever the result.
    pub fn clean(self, bytes: &[u8]) -> (Session, Result<XetFileInfo, StoreError>) {
        let alloc = self.alloc;
        let (store, answer) = clean_bytes(alloc, self.store, bytes, Sha256Policy::Compute);
        (Session { alloc, store }, answer.map(|cleaned| cleaned.0))
    }

    /// Cleans sources that may fail. Returns the session, whatever the result.
    pub fn clean_sources(
        self,
        sources: &mut [FailingSource; 3],
    ) -> (Session, Result<Cleaned, StoreError>) {
        let alloc = self.alloc;
        let (store, answer) = clean_files(alloc, self.store, sources, 1);
        (Session { alloc, store }, answer)
    }

    /// Writes a shard of what is pending.
    pub fn flush(&mut self) -> Result<Option<MerkleHash>, StoreError> {
        self.store.flush()
    }

    /// Bytes FROM..TO of a file, TO excluded.
    pub fn read(&mut self, hash: &MerkleHash, from: u64, to: u64) -> Result<Vec<u8>, StoreError> {
        self.store.read_range(hash, from, to)
    }

    /// The plan of a recorded file.
    pub fn plan(&self, hash: &MerkleHash) -> Result<Vec<FileDataSequenceEntry>, StoreError> {
        self.store
            .plan(self.alloc, hash)?
            .ok_or(StoreError::FileNotFound)
    }

    /// The hash and the length of each recorded file.
    pub fn files(&self) -> Result<Vec<(MerkleHash, u64)>, StoreError> {
        self.store.files(self.alloc)
    }

    /// The first byte of the SHA-256 in the record of a file.
    pub fn sha256_byte(&self, hash: &MerkleHash) -> Option<u8> {
        match self.store.record(hash)?.metadata_ext {
            Some(metadata) => Some(metadata.sha256.as_bytes()[0]),
            None => None,
        }
    }

    /// The number of listed xorbs.
    pub fn xorb_count(&self) -> u64 {
        self.store.xorb_count()
    }

    /// Closes the session and returns the disk.
    pub fn into_disk(self) -> MemoryDisk {
        self.store.into_disk()
    }

    /// Closes the session, drops the disk, and returns an answer that was taken before.
    pub fn closed<T>(self, answer: T) -> T {
        release(self.store.into_disk());
        answer
    }
}

/// Opens the folder of a disk. If the limits are not valid, the disk comes back with that error.
fn opened(alloc: Global, disk: MemoryDisk) -> Result<Store<MemoryDisk>, Refused<MemoryDisk>> {
    match limits() {
        Ok(limits) => Store::open(alloc, disk, "store", limits, NOW, false),
        Err(error) => Err(Refused {
            disk,
            error,
            name: None,
        }),
    }
}

/// The error of a folder that was not opened.
fn error_of(refused: Refused<MemoryDisk>) -> StoreError {
    refused.error
}

/// The error of opening the folder of a disk; none if it is opened.
pub fn refusal(alloc: Global, disk: MemoryDisk) -> Result<Option<Unopened>, StoreError> {
    match opened(alloc, disk) {
        Ok(store) => {
            release(store.into_disk());
            Ok(None)
        }
        Err(refused) => Ok(Some(reason_of(alloc, refused))),
    }
}

/// The error and the name of a folder that was not opened.
fn reason_of(alloc: Global, refused: Refused<MemoryDisk>) -> Unopened {
    let Refused { disk, error, name } = refused;
    release(disk);
    Unopened {
        error,
        name: match name {
            Some(name) => name.into_string(),
            None => String::new(alloc),
        },
    }
}

/// Drops a disk.
pub fn release(disk: MemoryDisk) {
    let _ = &disk;
}

/// The bytes of a file on a disk.
pub fn bytes_of(alloc: Global, disk: &MemoryDisk, name: &str) -> Result<Vec<u8>, StoreError> {
    let bytes = disk.get(name).ok_or(StoreError::FileNotFound)?;
    Ok(Vec::from_slice(alloc, bytes)?)
}

/// Writes bytes in place of a file on a disk.
pub fn put_bytes(disk: &mut MemoryDisk, name: &str, bytes: &[u8]) -> Result<(), StoreError> {
    match disk.write(name, bytes) {
        Ok(()) => Ok(()),
        Err(_) => Err(StoreError::Io(Place::Disk)),
    }
}

/// Removes a file from a disk. Returns whether it existed.
pub fn remove(disk: &mut MemoryDisk, name: &str) -> Result<bool, StoreError> {
    match disk.remove(name) {
        Ok(found) => Ok(found),
        Err(_) => Err(StoreError::Io(Place::Disk)),
    }
}
