//! The command `read`.

ghost use Rattle.std.specs.Prelude.{◌≡◌, ◌-◌, ◌≤◌, true, length, IfErr, IfOk, OnOk, IsErrOf};
ghost use Rattle.xet_io.specs.Faults.{HasCause};
ghost use Rattle.xet_io.specs.Frame.{Called};
ghost use Rattle.xet_store_disk.specs.Ranges.{IsRange, IsUnchanged};
ghost use Rattle.xet_program.specs.Answers.{IsRangeOf};
ghost use Rattle.xet_program.specs.internal.Stops.{ForValid, IsStop, finding_causes, reading_range_causes, stop_of_read};

use crate::ending::Stop;
use crate::opening::{FOLDER, not_opened};
use crate::words::default_limits;
use std::alloc::Global;
use std::marker::Send;
use xet_hash::{MerkleHash, StoreError};
use xet_io::Disk;
use xet_store_disk::Store;

/// Returns the disk, and bytes FROM..TO, TO excluded, of a file of the store in the folder `store` of the disk, or
/// why it stops. `now` is the time in seconds since 1970.
pub fn read<D: Disk + Send>(
    alloc: Global,
    hash: &MerkleHash,
    from: u64,
    to: u64,
    disk: D,
    now: u64,
) -> (D, Result<Vec<u8>, Stop>)
    ensures ordered { OnOk result.1 (from ≤ to) }
    ensures length { IfOk result.1 (λ bytes. length bytes.items ≡ to - from) }
    ensures range { IfOk result.1 (λ bytes. ForValid (D.tells disk) (D.files disk) now (λ contents. D.tells disk ≡ true → IsRangeOf (D.files disk) contents.records hash.now from to bytes.items)) }
    ensures stop { IfErr result.1 (IsStop (reading_range_causes (D.tells disk) now (D.files disk) hash.now from to)) }
    ensures same { D.files result.0 ≡ D.files disk }
    ensures frame { Called D.tells D.faults disk result.0 (IsErrOf result.1 Stop.Disk) }
{
    match Store::open(alloc, disk, FOLDER, default_limits(), now, false) {
        Ok(session) => {
            let mut session = session;
            let answer = read_range(&mut session, hash, from, to);
            (session.into_disk(), answer)
        }
        Err(refused) => not_opened(refused),
    }
}

/// Bytes FROM..TO, TO excluded, of a file of a session, or why there are none.
fn read_range<D: Disk + Send>(
    session: &mut Store<D>,
    hash: &MerkleHash,
    from: u64,
    to: u64,
) -> Result<Vec<u8>, Stop>
    ensures range { session.old.tells ≡ true → IfOk result (λ bytes. IsRange session.old hash.now from to bytes.items) }
    ensures ordered { OnOk result (from ≤ to) }
    ensures length { IfOk result (λ bytes. length bytes.items ≡ to - from) }
    ensures stop { IfErr result (IsStop (finding_causes session.old hash.now from to)) }
    ensures unchanged { IsUnchanged session.old session.new }
    ensures cause { HasCause session.old.faults session.new.faults (IsErrOf result Stop.Disk) }
{
    match session.read_range(hash, from, to) {
        Ok(bytes) => Ok(bytes),
        Err(error) => Err(stop_of_read(error)),
    }
}

/// The stop for an error of reading a range.
fn stop_of_read(error: StoreError) -> Stop
    ensures { result ≡ stop_of_read error }
{
    match error {
        StoreError::FileNotFound | StoreError::InvalidRange => Stop::NotFound,
        _ => Stop::from(error),
    }
}
