//! Reading of a whole shard from any reader.

ghost use Rattle.std.specs.Prelude.{◌≡◌, IfErr, IfOk, IsErrOf, Ok, true};
ghost use Rattle.xet_shard_format.specs.Lookups.{Lookups};
ghost use Rattle.xet_codec.specs.Parsing.{GivesUnlessFault};
ghost use Rattle.xet_shard_format.specs.Reading.{IsRead, IsShardError, all_of, shard_parts_of};
ghost use Rattle.xet_shard_format.specs.Encoding.{Fits, IsShard, Shard, shard_bytes};
ghost use Rattle.xet_io.specs.Frame.{ReadFrom};

use crate::info::MDBShardInfo;
use std::alloc::Global;
use xet_hash::{Place, StoreError};
use xet_io::{ReadAt, Refusal, read_whole};
use xet_shard_format::{MDBFileInfo, MDBShardFileFooter, MDBXorbInfo, read_shard};

impl MDBShardInfo {
    /// Reads and checks all bytes of a shard, and returns its xorbs, its files and its footer. The error is
    /// that of the first check that fails: header, footer, files, xorbs, lookup tables, totals; or it is
    /// `Io(Input)` if the reader failed, or `OutOfMemory`.
    pub fn check_whole<R: ReadAt>(
        alloc: Global,
        reader: &mut R,
    ) -> Result<(Vec<MDBXorbInfo>, Vec<MDBFileInfo>, MDBShardFileFooter), StoreError>
        // What is read is a well-formed shard with its footer, and the bytes are its encoding.
        ensures found { R.tells reader.old ≡ true → IfOk result (λ x. IsRead (R.bytes reader.old) (x.0.items, x.1.items, x.2)) }
        // The encoding of a well-formed shard is read, unless memory is out or the reader failed.
        ensures only { R.tells reader.old ≡ true → (w : Lookups) (s : Shard) → IsShard s → Fits s → R.bytes reader.old ≡ shard_bytes w s
            → GivesUnlessFault (λ x. (x.0.items, x.1.items, x.2)) result (Ok (shard_parts_of w s)) }
        // The error is that of the first check that fails, unless memory is out or the reader failed.
        ensures exact { R.tells reader.old ≡ true → GivesUnlessFault (λ x. (x.0.items, x.1.items, x.2)) result (all_of (R.bytes reader.old)) }
        ensures errors { IfErr result IsShardError }
        ensures frame { ReadFrom R.bytes R.tells R.faults R.lent reader.old reader.new (IsErrOf result (StoreError.Io Place.Input)) }
    {
        match read_whole(alloc, reader) {
            Ok(bytes) => read_shard(alloc, &bytes),
            Err(Refusal::Failed) => Err(StoreError::Io(Place::Input)),
            Err(Refusal::OutOfMemory) => Err(StoreError::OutOfMemory),
        }
    }
}
