//! The folder of a store: names of its files, and copies of shards in which one number differs.

use crate::session::{Session, bytes_of, put_bytes};
use std::alloc::Global;
use xet_hash::{MerkleHash, StoreError, compute_data_hash};
use xet_io::MemoryDisk;
use xet_shard_file::shard_path;
use xet_shard_format::read_shard;
use xet_store_disk::XetFileInfo;

/// The offset of the SHA-256 of the file in a shard of 672 bytes.
pub const SHA256: usize = 192;

/// The offset of the creation time in a shard of 672 bytes.
pub const CREATION: usize = 576;

/// The offset of the expiry in a shard of 672 bytes.
pub const EXPIRY: usize = 584;

/// What a shard lists: hashes of xorbs and files, the number of bytes of the files, and the footer's offset.
#[derive(Drop)]
pub struct Listed {
    pub xorbs: Vec<MerkleHash>,
    pub files: Vec<MerkleHash>,
    pub bytes: u64,
    pub footer: u64,
}

/// The hash of a file that was cleaned and flushed, and the hash of its shard.
#[derive(Clone, Copy)]
pub struct Flushed {
    pub file: MerkleHash,
    pub shard: MerkleHash,
}

/// The disk of a store in which a file of these bytes was cleaned and flushed, and the result.
pub fn written(
    alloc: Global,
    disk: MemoryDisk,
    bytes: &[u8],
) -> Result<(MemoryDisk, Result<Flushed, StoreError>), StoreError> {
    let (mut session, info) = Session::open(alloc, disk)?.clean(bytes);
    let shard = session.flush();
    Ok((session.into_disk(), answer_of(hash_of(&info), shard)))
}

/// The hash of a file that was cleaned.
pub fn hash_of(info: &Result<XetFileInfo, StoreError>) -> Result<MerkleHash, StoreError> {
    match info {
        Ok(info) => Ok(info.hash),
        Err(error) => Err(*error),
    }
}

/// The result for a file that was cleaned and then flushed.
fn answer_of(
    file: Result<MerkleHash, StoreError>,
    shard: Result<Option<MerkleHash>, StoreError>,
) -> Result<Flushed, StoreError> {
    let file = file?;
    let shard = shard?.ok_or(StoreError::FileNotFound)?;
    Ok(Flushed { file, shard })
}

/// Writes a copy of a shard with another number at this offset, and returns the hash of the copy.
pub fn put_changed(
    alloc: Global,
    disk: &mut MemoryDisk,
    shard: &MerkleHash,
    at: usize,
    number: u64,
) -> Result<MerkleHash, StoreError> {
    let mut bytes = encoding_of(alloc, disk, shard)?;
    change(&mut bytes, at, number);
    put_shard(alloc, disk, &bytes)
}

/// The bytes of a shard.
pub fn encoding_of(
    alloc: Global,
    disk: &MemoryDisk,
    shard: &MerkleHash,
) -> Result<Vec<u8>, StoreError> {
    let name = shard_path(alloc, "store", shard)?;
    bytes_of(alloc, disk, name.as_str())
}

/// Writes a shard under the name of its hash, and returns the hash.
fn put_shard(alloc: Global, disk: &mut MemoryDisk, bytes: &[u8]) -> Result<MerkleHash, StoreError> {
    let hash = compute_data_hash(bytes);
    let name = shard_path(alloc, "store", &hash)?;
    put_bytes(disk, name.as_str(), bytes)?;
    Ok(hash)
}

/// Writes a number of eight bytes at an offset.
fn change(bytes: &mut Vec<u8>, at: usize, number: u64) {
    for (i, byte) in number.to_le_bytes().iter().enumerate() {
        if let Some(place) = bytes.get_mut(at.saturating_add(i)) {
            *place = *byte;
        }
    }
}

/// What the bytes of a shard list.
pub fn read_listed(alloc: Global, encoding: &[u8]) -> Result<Listed, StoreError> {
    let (blocks, files, footer) = read_shard(alloc, encoding)?;
    let mut listed = Listed {
        xorbs: Vec::new(alloc),
        files: Vec::new(alloc),
        bytes: footer.materialized_bytes,
        footer: footer.footer_offset,
    };
    for block in &blocks {
        listed.xorbs.push(block.hash())?;
    }
    for file in &files {
        listed.files.push(file.hash())?;
    }
    Ok(listed)
}
