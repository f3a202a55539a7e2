//! Export of a shard file under a key.

ghost use Rattle.std.specs.Prelude.{◌≡◌, ◌≢◌, [], true, IfErr, IfOk, OnErr};
ghost use Rattle.xet_hash.specs.Hash.{zero_hash};
ghost use Rattle.xet_io.specs.Disk.{file_at};
ghost use Rattle.xet_io.specs.Frame.{Stays, Unchanged};
ghost use Rattle.xet_shard.specs.Export.{exported};
ghost use Rattle.xet_shard_directory.specs.Answers.{IsReadError};
ghost use Rattle.xet_shard_directory.specs.Exporting.{Exports, IsUnexported, IsUnwrittenExport, KeptOrWroteExport, WroteExport};
ghost use Rattle.xet_shard_file.specs.Names.{shard_path};

use crate::reading::{of_disk, stat};
use crate::shard_file::MDBShardFile;
use crate::writing::write_shard_file;
use std::alloc::Global;
use xet_codec::FileReader;
use xet_hash::{HMACKey, StoreError};
use xet_io::{Disk, MemorySink};
use xet_shard::laws::parts_are_read;
use xet_shard_format::shard_encoding::Lookups;

impl MDBShardFile {
    /// Writes the shard into a folder as a keyed shard, as `MDBShardInfo::export_as_keyed_shard` does, durably, under
    /// the name of its digest, and returns the new shard file. The caller ensures that the key is not zero, and that
    /// the shard is not keyed. `FileNotFound` if the file is not there; if the xorbs, or the files where they are
    /// selected, are malformed, the error is that of the first check that fails, and nothing is written. After any other
    /// error the new file is as it was, or the write has completed; a temporary file may be left.
    pub fn export_as_keyed_shard<D: Disk>(
        &self,
        alloc: Global,
        disk: &mut D,
        target: &str,
        key: HMACKey,
        valid_for: u64,
        files: bool,
        xorb_lookup: bool,
        chunk_lookup: bool,
        now: u64,
    ) -> Result<MDBShardFile, StoreError>
        requires key { key ≢ zero_hash }
        requires unkeyed { self.now.shard.metadata.chunk_hash_hmac_key ≡ zero_hash }
        ensures written { D.tells disk.old ≡ true → IfOk result (WroteExport (D.files disk.old) (D.files disk.new) target.now (file_at (D.files disk.old) self.now.path) (record { files = files; xorbs = xorb_lookup; chunks = chunk_lookup }) (exported files key valid_for now self.now.shard.metadata)) }
        ensures refused { D.tells disk.old ≡ true → OnErr result (KeptOrWroteExport (D.files disk.old) (D.files disk.new) target.now (file_at (D.files disk.old) self.now.path) (record { files = files; xorbs = xorb_lookup; chunks = chunk_lookup }) (exported files key valid_for now self.now.shard.metadata)) }
        ensures unwritten { D.tells disk.old ≡ true → IfErr result (IsUnwrittenExport (D.files disk.old) (D.files disk.new) (file_at (D.files disk.old) self.now.path) (exported files key valid_for now self.now.shard.metadata)) }
        ensures named { IfOk result (λ s. s.path ≡ shard_path target.now s.shard_hash) }
        ensures frame { Stays D.tells D.faults disk.old disk.new }
        ensures reason { IfErr result (IsReadError (D.faults disk.old) (D.faults disk.new)) }
    {
        parts_are_read();
        let lookups = Lookups {
            files,
            xorbs: xorb_lookup,
            chunks: chunk_lookup,
        };
        let bytes = self.keyed_bytes(alloc, disk, lookups, key, valid_for, now)?;
        write_shard_file(alloc, disk, target, &bytes)
    }

    /// The bytes of the keyed shard.
    fn keyed_bytes<D: Disk>(
        &self,
        alloc: Global,
        disk: &mut D,
        lookups: Lookups,
        key: HMACKey,
        valid_for: u64,
        now: u64,
    ) -> Result<Vec<u8>, StoreError>
        requires key { key ≢ zero_hash }
        requires unkeyed { self.now.shard.metadata.chunk_hash_hmac_key ≡ zero_hash }
        ensures export { D.tells disk.old ≡ true → IfOk result (λ bytes. Exports (file_at (D.files disk.old) self.now.path) (record { files = lookups.files; xorbs = lookups.xorbs; chunks = lookups.chunks }) (exported lookups.files key valid_for now self.now.shard.metadata) bytes.items) }
        ensures refused { D.tells disk.old ≡ true → IfErr result (IsUnexported (file_at (D.files disk.old) self.now.path) (exported lookups.files key valid_for now self.now.shard.metadata)) }
        ensures frame { Unchanged D.files D.tells D.faults disk.old disk.new }
        ensures reason { IfErr result (IsReadError (D.faults disk.old) (D.faults disk.new)) }
    {
        let path = self.path.as_str();
        stat(disk, path)?;
        let mut reader = FileReader::new(disk, path);
        let mut sink = MemorySink::new(alloc);
        let answer = self.shard.export_as_keyed_shard(
            alloc,
            &mut reader,
            &mut sink,
            key,
            valid_for,
            lookups.files,
            lookups.xorbs,
            lookups.chunks,
            now,
        );
        match of_disk(answer, reader.was_out_of_memory()) {
            Ok(()) => Ok(sink.into_bytes()),
            Err(error) => Err(error),
        }
    }
}
