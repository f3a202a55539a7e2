//! The errors of the calls below, as errors of cleaning.

ghost use Rattle.std.specs.Prelude.{◌≡◌};
ghost use Rattle.xet_clean.specs.Errors.{store_error};

use xet_dedup::DedupError;
use xet_hash::StoreError;

/// The error of a store, for one of the deduplication of a file.
pub(crate) fn store_error(error: DedupError<StoreError>) -> StoreError
    ensures { result ≡ store_error error }
{
    match error {
        DedupError::Interface(error) => error,
        DedupError::OutOfMemory => StoreError::OutOfMemory,
    }
}
