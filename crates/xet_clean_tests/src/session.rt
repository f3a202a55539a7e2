//! A store behind calls that have no contract.

use std::alloc::Global;
use xet_clean::{Cleaned, Sha256Policy, clean_bytes, clean_file, clean_files};
use xet_cut::{LimitSettings, Limits};
use xet_dedup::{Choice, DeduplicationMetrics};
use xet_hash::{MerkleHash, StoreError};
use xet_history::Entry;
use xet_io::{Disk, FailingSource, MemoryDisk, Op, Refusal, SliceSource};
use xet_shard_format::{FileDataSequenceEntry, Sha256};
use xet_store::Store;
use xet_store_disk::XetFileInfo;

/// A store in the folder `store` of a disk in memory.
#[derive(Drop)]
pub struct Session {
    alloc: Global,
    store: Store<MemoryDisk>,
}

/// Chunks from 64 to 1,024 bytes that end as soon as they may; shards have at most this target length if they can be shorter,
/// and a source has at most so many bytes.
pub fn limits(shard_target: u64, max_source_bytes: u64) -> Result<Limits, StoreError> {
    Limits::new(LimitSettings {
        target_chunk: 512,
        minimum_chunk: 64,
        maximum_chunk: 1024,
        shard_target,
        max_source_bytes,
        ..LimitSettings::shown([0; 256])
    })
}

/// The same chunks, at most eight in a xorb; shards of at most 4 KiB if they can be shorter; and blocks of 100 bytes.
pub fn small_limits() -> Result<Limits, StoreError> {
    Limits::new(LimitSettings {
        target_chunk: 512,
        minimum_chunk: 64,
        maximum_chunk: 1024,
        cut_bytes: 1024,
        cut_chunks: 8,
        shard_target: 4096,
        block_bytes: 100,
        max_source_bytes: 1 << 20,
        ..LimitSettings::shown([0; 256])
    })
}

/// Opens the folder `store` of a disk.
fn opened(alloc: Global, disk: MemoryDisk, limits: Limits) -> Result<Session, StoreError> {
    match Store::open(alloc, disk, "store", limits, 1_000, false) {
        Ok(store) => Ok(Session { alloc, store }),
        Err(refused) => Err(refused.error),
    }
}

impl Session {
    /// Opens the folder of a new disk, with limits that small files pass.
    pub fn of_small_xorbs(alloc: Global) -> Result<Session, StoreError> {
        opened(alloc, MemoryDisk::new(alloc), small_limits()?)
    }

    /// Opens the folder of a new disk.
    pub fn new(
        alloc: Global,
        shard_target: u64,
        max_source_bytes: u64,
    ) -> Result<Session, StoreError> {
        let limits = limits(shard_target, max_source_bytes)?;
        opened(alloc, MemoryDisk::new(alloc), limits)
    }

    /// Opens the folder of a new disk. For each pair (kind, n) the call of this kind after n others of it fails.
    pub fn failing(alloc: Global, fails: Vec<(Op, u64)>) -> Result<Session, StoreError> {
        let limits = limits(1 << 20, 1 << 20)?;
        opened(alloc, MemoryDisk::failing(alloc, fails), limits)
    }

    /// Cleans one file.
    pub fn clean(self, bytes: &[u8]) -> (Session, Result<Cleaned, StoreError>) {
        let alloc = self.alloc;
        let mut sources = [SliceSource::new(bytes)];
        let (store, answer) = clean_files(alloc, self.store, &mut sources, 1);
        (Session { alloc, store }, answer)
    }

    /// Cleans two files in one call.
    pub fn clean_two(self, first: &[u8], second: &[u8]) -> (Session, Result<Cleaned, StoreError>) {
        let alloc = self.alloc;
        let mut sources = [SliceSource::new(first), SliceSource::new(second)];
        let (store, answer) = clean_files(alloc, self.store, &mut sources, 1);
        (Session { alloc, store }, answer)
    }

    /// Cleans these files in one call. More than 2^20 are refused.
    pub fn clean_all(self, files: &[Vec<u8>]) -> (Session, Result<Cleaned, StoreError>) {
        let alloc = self.alloc;
        match sources_of(alloc, files) {
            Ok(mut sources) => {
                if sources.len() > 1 << 20 {
                    return (self, Err(StoreError::InvalidArguments));
                }
                let (store, answer) = clean_files(alloc, self.store, &mut sources, 1);
                (Session { alloc, store }, answer)
            }
            Err(error) => (self, Err(error)),
        }
    }

    /// Cleans a file whose first read fails.
    pub fn clean_failing(self, bytes: &[u8]) -> (Session, Result<Cleaned, StoreError>) {
        let alloc = self.alloc;
        let mut sources = [FailingSource::new(bytes, 0)];
        let (store, answer) = clean_files(alloc, self.store, &mut sources, 1);
        (Session { alloc, store }, answer)
    }

    /// Cleans two files in one call. Reading the second fails after so many bytes.
    pub fn clean_two_failing(
        self,
        first: &[u8],
        second: &[u8],
        fail_at: u64,
    ) -> (Session, Result<Cleaned, StoreError>) {
        let alloc = self.alloc;
        let mut sources = [
            FailingSource::new(first, u64::MAX),
            FailingSource::new(second, fail_at),
        ];
        let (store, answer) = clean_files(alloc, self.store, &mut sources, 1);
        (Session { alloc, store }, answer)
    }

    /// Cleans one file of these bytes.
    pub fn clean_bytes(
        self,
        bytes: &[u8],
        policy: Sha256Policy,
    ) -> (
        Session,
        Result<(XetFileInfo, DeduplicationMetrics), StoreError>,
    ) {
        let alloc = self.alloc;
        let (store, answer) = clean_bytes(alloc, self.store, bytes, policy);
        (Session { alloc, store }, answer)
    }

    /// Cleans the file of one source.
    pub fn clean_file(
        self,
        bytes: &[u8],
        policy: Sha256Policy,
    ) -> (
        Session,
        Result<(XetFileInfo, DeduplicationMetrics), StoreError>,
    ) {
        let alloc = self.alloc;
        let mut source = SliceSource::new(bytes);
        let (store, answer) = clean_file(alloc, self.store, &mut source, policy);
        (Session { alloc, store }, answer)
    }

    /// Cleans the file of one source whose first read fails.
    pub fn clean_failing_file(
        self,
        bytes: &[u8],
    ) -> (
        Session,
        Result<(XetFileInfo, DeduplicationMetrics), StoreError>,
    ) {
        let alloc = self.alloc;
        let mut source = FailingSource::new(bytes, 0);
        let (store, answer) = clean_file(alloc, self.store, &mut source, Sha256Policy::Compute);
        (Session { alloc, store }, answer)
    }

    /// The SHA-256 with which the last entry of the history records a file.
    pub fn last_sha256(&self) -> Option<Sha256> {
        match self.store.history().last() {
            Some(Entry::Complete { file, .. }) => match &file.metadata_ext {
                Some(metadata) => Some(metadata.sha256),
                None => None,
            },
            _ => None,
        }
    }

    /// For each entry of the history its letter, in capitals if something was added.
    pub fn history(&self) -> Result<String, StoreError> {
        let mut letters = String::new(self.alloc);
        for entry in self.store.history() {
            letters.push(letter(entry))?;
        }
        Ok(letters)
    }

    /// Writes a shard of what is pending. Returns whether anything was.
    pub fn flush(&mut self) -> Result<bool, StoreError> {
        Ok(self.store.flush()?.is_some())
    }

    /// The segments of a file, as runs of chunks with their lengths in bytes.
    pub fn segments(&self, hash: &MerkleHash) -> Result<Vec<(u32, u32, u32)>, StoreError> {
        let plan = self.store.plan(self.alloc, hash)?;
        match plan {
            Some(segments) => runs_of(self.alloc, &segments),
            None => Err(StoreError::FileNotFound),
        }
    }

    /// The bytes of a file from 60 on, up to 70.
    pub fn ten_bytes(&mut self, hash: &MerkleHash) -> Result<Vec<u8>, StoreError> {
        self.store.read_range(hash, 60, 70)
    }

    /// The numbers of listed xorbs, of recorded files and of registered shards.
    pub fn counts(&self) -> Result<[u64; 3], StoreError> {
        let files = self.store.files(self.alloc)?.len() as u64;
        Ok([self.store.xorb_count(), files, self.store.shard_count()])
    }

    /// Writes a shard of what is pending, and opens the folder again.
    pub fn flush_and_open(self) -> Result<Session, StoreError> {
        let Session { alloc, mut store } = self;
        let flushed = store.flush();
        let limits = *store.limits();
        let disk = store.into_disk();
        match flushed {
            Ok(_) => opened(alloc, disk, limits),
            Err(error) => Err(error),
        }
    }

    /// Whether a file of this hash is recorded that has these bytes.
    pub fn has_file(&mut self, hash: &MerkleHash, bytes: &[u8]) -> Result<bool, StoreError> {
        let read = self.store.read_range(hash, 0, bytes.len() as u64)?;
        Ok(read.as_slice() == bytes)
    }

    /// Closes the session.
    pub fn close(self) {
        let _disk = self.store.into_disk();
    }

    /// Closes the session. Returns the lengths of the xorbs in the folder.
    pub fn close_and_measure(self) -> Result<Vec<usize>, StoreError> {
        let Session { alloc, store } = self;
        let mut disk = store.into_disk();
        let lengths = xorb_lengths(alloc, &mut disk);
        release(disk);
        lengths.map_err(|_| StoreError::OutOfMemory)
    }
}

/// Drops a disk.
fn release(disk: MemoryDisk) {
    let _ = &disk;
}

/// The lengths of the xorbs in the folder of a disk.
fn xorb_lengths(alloc: Global, disk: &mut MemoryDisk) -> Result<Vec<usize>, Refusal> {
    let mut lengths = Vec::new(alloc);
    for entry in disk.list(alloc, "store")? {
        let name = entry.name.as_str();
        let path = format!(in alloc; "store/{name}")?;
        if name.ends_with(".xorb") {
            lengths.push(disk.get(path.as_str()).map_or(0, |bytes| bytes.len()))?;
        }
    }
    Ok(lengths)
}

/// A source for each file.
fn sources_of<'a>(alloc: Global, files: &'a [Vec<u8>]) -> Result<Vec<SliceSource<'a>>, StoreError> {
    let mut sources = Vec::with_capacity(alloc, files.len())?;
    for file in files {
        sources.push(SliceSource::new(file))?;
    }
    Ok(sources)
}

/// The runs that segments name, with their lengths in bytes.
fn runs_of(
    alloc: Global,
    segments: &[FileDataSequenceEntry],
) -> Result<Vec<(u32, u32, u32)>, StoreError> {
    let mut runs = Vec::with_capacity(alloc, segments.len())?;
    for segment in segments {
        runs.push((
            segment.chunk_index_start,
            segment.chunk_index_end,
            segment.unpacked_segment_bytes,
        ))?;
    }
    Ok(runs)
}

/// The letter of an entry.
fn letter(entry: &Entry) -> char {
    match entry {
        Entry::Query { reply: Some(_), .. } => 'q',
        Entry::Query { .. } => 'Q',
        Entry::Register { added: true, .. } => 'R',
        Entry::Register { .. } => 'r',
        Entry::Complete { added: true, .. } => 'C',
        Entry::Complete { .. } => 'c',
        Entry::Flush { .. } => 'F',
        Entry::Fault { .. } => '!',
    }
}

/// A choice as a letter and a number.
pub fn shown(choice: &Choice) -> (char, u64) {
    match choice {
        Choice::Reused { segment } => ('r', *segment),
        Choice::NoPlace { entry } => ('n', *entry),
        Choice::Refused { run } => ('g', *run),
        Choice::Inside { start } => ('i', *start),
    }
}
