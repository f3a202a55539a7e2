//! Converts the errors of a disk to `StoreError`.

ghost use Rattle.std.specs.Prelude.{◌≡◌};
ghost use Rattle.xet_codec.specs.Stops.{from_refusal};

use xet_hash::{Place, StoreError};
use xet_io::Refusal;

/// The `StoreError` for the error of a disk: `Io(Disk)` or `OutOfMemory`.
pub fn store_error(refusal: Refusal) -> StoreError
    ensures { result ≡ from_refusal refusal }
{
    match refusal {
        Refusal::Failed => StoreError::Io(Place::Disk),
        Refusal::OutOfMemory => StoreError::OutOfMemory,
    }
}
