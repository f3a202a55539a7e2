//! A folder with the file `abcdef`, in the two chunks of one xorb.

ghost use Rattle.std.specs.Prelude.{map};
ghost use Rattle.xet_xorb_chunk.specs.Chunks.{bytes_of_chunk};
ghost use Rattle.xet_xorb.specs.Raw.{ArePartsOfXorb};

use bytes::Bytes;
use std::alloc::Global;
use xet_base::Items;
use xet_codec::store_error;
use xet_folder::{put_shard, put_xorb, xorb_path};
use xet_hash::{MerkleHash, StoreError, compute_data_hash, file_hash, xorb_hash};
use xet_io::{Disk, MemoryDisk};
use xet_shard::write_shard;
use xet_shard_format::{FileDataSequenceEntry, FileDataSequenceHeader, MDBFileInfo};
use xet_xorb::{RawXorbData, SerializedXorbObject};
use xet_xorb_chunk::Chunk;

/// The name of the folder.
pub const FOLDER: &str = "store";

/// The offset of the last byte of the second chunk in the file of the xorb: each chunk is stored after a header of 8 bytes.
const LAST: usize = 21;

/// The file hash of the two chunks.
fn hash_of_file(alloc: Global) -> Result<MerkleHash, StoreError> {
    let abc = compute_data_hash(b"abc");
    let def = compute_data_hash(b"def");
    file_hash(alloc, &[(abc, 3), (def, 3)])
}

/// The xorb hash of the two chunks.
fn hash_of_xorb(alloc: Global) -> Result<MerkleHash, StoreError> {
    let abc = compute_data_hash(b"abc");
    let def = compute_data_hash(b"def");
    xorb_hash(alloc, &[(abc, 3), (def, 3)])
}

/// Stores the file, and returns its hash.
pub fn store_file(alloc: Global, disk: &mut MemoryDisk) -> Result<MerkleHash, StoreError> {
    let xorb = store_xorb(alloc, disk)?;
    let hash = hash_of_file(alloc)?;
    let bytes = shard_bytes(alloc, hash, xorb)?;
    put_shard(disk, alloc, FOLDER, &compute_data_hash(&bytes), &bytes)?;
    Ok(hash)
}

/// Stores the xorb, and returns its hash.
fn store_xorb(alloc: Global, disk: &mut MemoryDisk) -> Result<MerkleHash, StoreError> {
    let chunks = [
        Chunk::new(Bytes::from_static(b"abc")),
        Chunk::new(Bytes::from_static(b"def")),
    ];
    let hash = hash_of_xorb(alloc)?;
    put_xorb(disk, alloc, FOLDER, &hash, &xorb_bytes(alloc, &chunks)?)?;
    Ok(hash)
}

/// The bytes of the xorb of these chunks.
fn xorb_bytes(alloc: Global, chunks: &[Chunk]) -> Result<Vec<u8>, StoreError>
    requires { ArePartsOfXorb (map bytes_of_chunk chunks.now) }
{
    let raw = RawXorbData::from_chunks(alloc, chunks, Vec::new(alloc))?;
    let built = SerializedXorbObject::from_xorb(alloc, raw, true)?;
    Ok(built.serialized_data.into_vec())
}

/// The bytes of a shard that lists the file with this hash as the two chunks of this xorb.
fn shard_bytes(alloc: Global, hash: MerkleHash, xorb: MerkleHash) -> Result<Vec<u8>, StoreError> {
    let file = MDBFileInfo {
        metadata: FileDataSequenceHeader::new(hash, 1, false, false),
        segments: Items::from_vec(vec![in alloc; FileDataSequenceEntry::new(xorb, 6, 0, 2)]?),
        verification: Items::new(alloc),
        metadata_ext: None,
    };
    Ok(write_shard(alloc, &[], &[&file], MerkleHash::default(), 0, u64::MAX)?.0)
}

/// Changes the last byte of the second chunk in the file of the xorb.
pub fn damage(alloc: Global, disk: &mut MemoryDisk) -> Result<(), StoreError> {
    let path = xorb_path(alloc, FOLDER, &hash_of_xorb(alloc)?)?;
    let bytes = damaged(alloc, disk, path.as_str())?;
    match disk.write(path.as_str(), &bytes) {
        Ok(()) => Ok(()),
        Err(refusal) => Err(store_error(refusal)),
    }
}

/// The bytes of a file, with another last byte of the second chunk.
fn damaged(alloc: Global, disk: &mut MemoryDisk, path: &str) -> Result<Vec<u8>, StoreError> {
    match xet_io::read_file(disk, alloc, path) {
        Ok(Some(mut bytes)) => {
            if let Some(last) = bytes.get_mut(LAST) {
                *last = b'g';
            }
            Ok(bytes)
        }
        Ok(None) => Err(StoreError::FileNotFound),
        Err(refusal) => Err(store_error(refusal)),
    }
}

/// Drops a disk.
pub fn release(disk: MemoryDisk) {
    let _ = &disk;
}
