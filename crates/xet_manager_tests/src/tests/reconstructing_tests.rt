//! Tests of the records of files, through `FileReconstructor`, on a disk in memory.

ghost use Rattle.std.specs.Prelude.{◌≡◌};
ghost use Rattle.xet_shard.specs.Held.{nothing};

use crate::tests::records::add_both;
use crate::tests::samples::{Manager, bytes_of_abc, opened, release};
use std::alloc::Global;
use std::test::Fail;
use xet_hash::{MerkleHash, StoreError, compute_data_hash, file_hash};
use xet_io::MemoryDisk;
use xet_manager::FileReconstructor;
use xet_shard::MDBFileInfo;
use xet_shard_format::section::Record;
use xet_shard_samples::file_of_abc;

/// The hash of the registered shard of `abc`.
const HASH: &str = "8285f56118ed97b102aafe3e2cc404ca510a016dde7acaa2c16d8c935fb38ae3";

/// Whether a record is the expected one, and the hash of the shard that has it; None if there is no record.
type Answer = Option<(bool, Option<MerkleHash>)>;

/// The answer to the hash of a record.
fn answer<R: FileReconstructor<StoreError>>(
    reconstructor: &mut R,
    expected: &MDBFileInfo,
) -> Result<Answer, StoreError> {
    let found = reconstructor.get_file_reconstruction_info(&expected.hash())?;
    Ok(found.map(|answer| (answer.0.same(expected), answer.1)))
}

/// The record of the file of these three bytes.
fn file_of(alloc: Global, bytes: &[u8]) -> Result<MDBFileInfo, StoreError> {
    let chunk = compute_data_hash(bytes);
    let hash = file_hash(alloc, &[(chunk, 3)])?;
    file_of_abc(alloc, hash, chunk)
}

/// The answer to the hash of the file of these three bytes.
fn answer_of<R: FileReconstructor<StoreError>>(
    alloc: Global,
    reconstructor: &mut R,
    bytes: &[u8],
) -> Result<Answer, StoreError> {
    let expected = file_of(alloc, bytes)?;
    answer(reconstructor, &expected)
}

/// The answers to a zero hash, and to the hashes of the files of `abc`, `abd` and `abe`.
fn answers<R: FileReconstructor<StoreError>>(
    alloc: Global,
    reconstructor: &mut R,
) -> Result<[Answer; 4], StoreError> {
    let zero = answer(reconstructor, &MDBFileInfo::default(alloc))?;
    let first = answer_of(alloc, reconstructor, b"abc")?;
    let second = answer_of(alloc, reconstructor, b"abd")?;
    Ok([
        zero,
        first,
        second,
        answer_of(alloc, reconstructor, b"abe")?,
    ])
}

/// The same once `abc` is registered and `abd` is pending.
fn added(alloc: Global, manager: &mut Manager) -> Result<[Answer; 4], StoreError>
    requires empty { manager.old.pending ≡ nothing }
{
    add_both(alloc, manager, b"abd")?;
    manager.import_shard_from_bytes(&bytes_of_abc(alloc)?)?;
    answers(alloc, manager)
}

fn added_to_empty(alloc: Global) -> Result<[Answer; 4], StoreError> {
    let mut manager = opened(alloc, MemoryDisk::new(alloc), 10_000, true)?;
    let answer = added(alloc, &mut manager);
    release(manager);
    answer
}

#[test]
fn manager_is_a_file_reconstructor(rt: HostRuntime) -> Result<(), Fail> {
    let shard = MerkleHash::from_hex(HASH)?;
    let pending = Some((true, None));
    let registered = Some((true, Some(shard)));
    assert_eq!(rt;
        added_to_empty(rt.alloc())?,
        [pending, registered, pending, None]
    );
    Ok(())
}
