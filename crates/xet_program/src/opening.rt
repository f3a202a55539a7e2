//! The folder of the store, and what follows if it was not opened.

ghost use Rattle.std.specs.Prelude.{◌≡◌, IsErrOf};
ghost use Rattle.xet_program.specs.internal.Stops.{stop_of_refusal};

use crate::ending::Stop;
use xet_hash::Refused;
use xet_io::Disk;

/// The folder of the store on the disk.
pub const FOLDER: &str = "store";

/// The result if the folder was not opened: the disk, and the error as a stop.
pub fn not_opened<D: Disk>(refused: Refused<D>) -> (D, Result<Vec<u8>, Stop>)
    ensures disk { result.0 ≡ refused.disk }
    ensures stop { IsErrOf result.1 (stop_of_refusal refused.error refused.name) }
{
    let Refused { disk, error, name } = refused;
    let stop = match name {
        Some(name) => Stop::BadShard(name),
        None => Stop::from(error),
    };
    (disk, Err(stop))
}
