//! Verification of a shard file.

ghost use Rattle.std.specs.Prelude.{◌≡◌, ℕ, true, IfErr};
ghost use Rattle.xet_codec.specs.Parsing.{Gives};
ghost use Rattle.xet_io.specs.Disk.{file_at};
ghost use Rattle.xet_io.specs.Frame.{Unchanged};
ghost use Rattle.xet_shard_directory.specs.Answers.{GivesUnlessDisk, IsReadError, in_file};
ghost use Rattle.xet_shard_directory.specs.Integrity.{failed_by, failed_check, integrity};
ghost use Rattle.xet_shard_format.specs.Reading.{all_of};

use crate::paths::last_part;
use crate::shard_file::MDBShardFile;
use std::alloc::Global;
use xet_codec::store_error;
use xet_hash::{Reason, StoreError, compute_data_hash};
use xet_io::{Disk, read_file};
use xet_shard::{read_shard, shard_file_name};

impl MDBShardFile {
    /// The first check that fails: `ShardHash` if the digest of the file's bytes is another than this value's hash,
    /// `ShardName` if the file is not named by it, then the checks of the header, the footer, the sections and the
    /// lookup tables. None if all hold; the totals in the footer are not checked. `FileNotFound` if there is no file,
    /// and `UnexpectedEof` if its bytes end inside a field.
    pub fn verify_shard_integrity<D: Disk>(
        &self,
        alloc: Global,
        disk: &mut D,
    ) -> Result<Option<Reason>, StoreError>
        ensures exact { D.tells disk.old ≡ true → GivesUnlessDisk (λ check. check) result (in_file (file_at (D.files disk.old) self.now.path) (λ f. integrity self.now.shard_hash self.now.path f.bytes)) }
        ensures frame { Unchanged D.files D.tells D.faults disk.old disk.new }
        ensures reason { IfErr result (IsReadError (D.faults disk.old) (D.faults disk.new)) }
    {
        match read_file(disk, alloc, self.path.as_str()) {
            Ok(Some(bytes)) => self.failed_check(alloc, &bytes),
            Ok(None) => Err(StoreError::FileNotFound),
            Err(refusal) => Err(store_error(refusal)),
        }
    }

    /// `verify_shard_integrity`, under the name that callers use who verify in tests alone.
    pub fn verify_shard_integrity_debug_only<D: Disk>(
        &self,
        alloc: Global,
        disk: &mut D,
    ) -> Result<Option<Reason>, StoreError>
        ensures exact { D.tells disk.old ≡ true → GivesUnlessDisk (λ check. check) result (in_file (file_at (D.files disk.old) self.now.path) (λ f. integrity self.now.shard_hash self.now.path f.bytes)) }
        ensures frame { Unchanged D.files D.tells D.faults disk.old disk.new }
        ensures reason { IfErr result (IsReadError (D.faults disk.old) (D.faults disk.new)) }
    {
        self.verify_shard_integrity(alloc, disk)
    }

    /// The first check that these bytes fail, as those of this shard file.
    #[tactic(auto, unfolding(crate::specs::Integrity::integrity))]
    fn failed_check(&self, alloc: Global, bytes: &[u8]) -> Result<Option<Reason>, StoreError>
        ensures exact { Gives (λ check. check) result (integrity self.now.shard_hash self.now.path bytes.now) }
        ensures error { (before now : ℕ) → IfErr result (IsReadError before now) }
    {
        if compute_data_hash(bytes) != self.shard_hash {
            return Ok(Some(Reason::ShardHash));
        }
        let name = shard_file_name(alloc, &self.shard_hash)?;
        if last_part(self.path.as_str()) != name.as_str() {
            return Ok(Some(Reason::ShardName));
        }
        failed_check(alloc, bytes)
    }
}

/// The first check that the bytes of a shard fail, but for its totals.
fn failed_check(alloc: Global, bytes: &[u8]) -> Result<Option<Reason>, StoreError>
    ensures exact { Gives (λ check. check) result (failed_check (all_of bytes.now)) }
    ensures error { (before now : ℕ) → IfErr result (IsReadError before now) }
{
    match read_shard(alloc, bytes).err() {
        Some(error) => failed_by(error),
        None => Ok(None),
    }
}

/// The check that this error of reading a shard tells of.
fn failed_by(error: StoreError) -> Result<Option<Reason>, StoreError>
    ensures { result ≡ failed_by error }
{
    match error {
        StoreError::MalformedData(Reason::Totals) => Ok(None),
        StoreError::MalformedData(reason) => Ok(Some(reason)),
        error => Err(error),
    }
}
