//! The parts of a shard file, and queries to it, read from the file where it lies.

ghost use Rattle.std.specs.Prelude.{◌≡◌, true, None, Ok, IfErr, IfOk, IfSome, Some};
ghost use Rattle.xet_io.specs.Disk.{File, file_at};
ghost use Rattle.xet_io.specs.Frame.{Unchanged};
ghost use Rattle.xet_shard.specs.Queries.{run_in};
ghost use Rattle.xet_shard.specs.RunForms.{IsRunFor};
ghost use Rattle.xet_shard.specs.Sections.{block_heads_in, chunk_lookup_in, files_in, xorb_lookup_in};
ghost use Rattle.xet_shard_directory.specs.Asked.{AnswersFile, AnswersRun, AnswersRunAt};
ghost use Rattle.xet_shard_directory.specs.Answers.{GivesUnlessDisk, IsFileQueryError, IsQueryError, IsReadError, in_file};
ghost use Rattle.xet_shard_format.specs.Lookups.{flat_places};

use crate::reading::{of_disk, size_of};
use crate::shard_file::MDBShardFile;
use crate::sized_reader::SizedFileReader;
use std::alloc::Global;
use xet_hash::{MerkleHash, StoreError};
use xet_io::Disk;
use xet_shard::{FileDataSequenceEntry, MDBFileInfo, XorbChunkSequenceHeader};

impl MDBShardFile {
    /// The header of each xorb, with its row from the start of the section. `FileNotFound` if there is no file; if
    /// bytes are malformed, the error is that of the first check that fails.
    pub fn read_all_xorb_blocks<D: Disk>(
        &self,
        alloc: Global,
        disk: &mut D,
    ) -> Result<Vec<(XorbChunkSequenceHeader, u64)>, StoreError>
        ensures exact { D.tells disk.old ≡ true → GivesUnlessDisk (λ v. v.items) result (in_file (file_at (D.files disk.old) self.now.path) (λ f. block_heads_in self.now.shard.metadata f.bytes)) }
        ensures frame { Unchanged D.files D.tells D.faults disk.old disk.new }
        ensures reason { IfErr result (IsReadError (D.faults disk.old) (D.faults disk.new)) }
    {
        match self.get_sized_reader(disk) {
            Ok(mut reader) => {
                let answer = self.shard.read_all_xorb_blocks(alloc, &mut reader);
                of_disk(answer, reader.was_out_of_memory())
            }
            Err(refused) => Err(refused.into_error()),
        }
    }

    /// The files of the shard. Errors are those of `read_all_xorb_blocks`.
    pub fn read_all_file_info_sections<D: Disk>(
        &self,
        alloc: Global,
        disk: &mut D,
    ) -> Result<Vec<MDBFileInfo>, StoreError>
        ensures exact { D.tells disk.old ≡ true → GivesUnlessDisk (λ v. v.items) result (in_file (file_at (D.files disk.old) self.now.path) (λ f. files_in self.now.shard.metadata f.bytes)) }
        ensures frame { Unchanged D.files D.tells D.faults disk.old disk.new }
        ensures reason { IfErr result (IsReadError (D.faults disk.old) (D.faults disk.new)) }
    {
        match self.get_sized_reader(disk) {
            Ok(mut reader) => {
                let answer = self.shard.read_all_file_info_sections(alloc, &mut reader);
                of_disk(answer, reader.was_out_of_memory())
            }
            Err(refused) => Err(refused.into_error()),
        }
    }

    /// The xorb lookup table: for each xorb the first word of its hash, and the row of its header. An omitted table is
    /// made from the xorbs. Errors are those of `read_all_xorb_blocks`.
    pub fn read_full_xorb_lookup<D: Disk>(
        &self,
        alloc: Global,
        disk: &mut D,
    ) -> Result<Vec<(u64, u32)>, StoreError>
        ensures exact { D.tells disk.old ≡ true → GivesUnlessDisk (λ v. v.items) result (in_file (file_at (D.files disk.old) self.now.path) (λ f. xorb_lookup_in self.now.shard.metadata f.bytes)) }
        ensures frame { Unchanged D.files D.tells D.faults disk.old disk.new }
        ensures reason { IfErr result (IsReadError (D.faults disk.old) (D.faults disk.new)) }
    {
        match self.get_sized_reader(disk) {
            Ok(mut reader) => {
                let answer = self.shard.read_full_xorb_lookup(alloc, &mut reader);
                of_disk(answer, reader.was_out_of_memory())
            }
            Err(refused) => Err(refused.into_error()),
        }
    }

    /// The chunk lookup table: for each chunk the first word of its hash, the row of its xorb's header, and its index in
    /// the xorb. An omitted table is made from the xorbs. Errors are those of `read_all_xorb_blocks`.
    pub fn read_all_truncated_hashes<D: Disk>(
        &self,
        alloc: Global,
        disk: &mut D,
    ) -> Result<Vec<(u64, (u32, u32))>, StoreError>
        ensures exact { D.tells disk.old ≡ true → GivesUnlessDisk (λ v. flat_places v.items) result (in_file (file_at (D.files disk.old) self.now.path) (λ f. chunk_lookup_in self.now.shard.metadata f.bytes)) }
        ensures frame { Unchanged D.files D.tells D.faults disk.old disk.new }
        ensures reason { IfErr result (IsReadError (D.faults disk.old) (D.faults disk.new)) }
    {
        match self.get_sized_reader(disk) {
            Ok(mut reader) => {
                let answer = self.shard.read_all_truncated_hashes(alloc, &mut reader);
                of_disk(answer, reader.was_out_of_memory())
            }
            Err(refused) => Err(refused.into_error()),
        }
    }

    /// The file record with a hash. None if the shard has none, or if there is no file. If eight or more files share
    /// the first word of the hash, the error is `TruncatedHashCollision`; if bytes are malformed, that of the first
    /// check that fails.
    pub fn get_file_reconstruction_info<D: Disk>(
        &self,
        alloc: Global,
        disk: &mut D,
        hash: &MerkleHash,
    ) -> Result<Option<MDBFileInfo>, StoreError>
        ensures present { D.tells disk.old ≡ true → (f : File) → file_at (D.files disk.old) self.now.path ≡ Some f → AnswersFile self.now.shard hash.now f.bytes result }
        ensures absent { D.tells disk.old ≡ true → file_at (D.files disk.old) self.now.path ≡ None → GivesUnlessDisk (λ found. found) result (Ok None) }
        ensures frame { Unchanged D.files D.tells D.faults disk.old disk.new }
        ensures reason { IfErr result (IsFileQueryError (D.faults disk.old) (D.faults disk.new)) }
    {
        let path = self.path.as_str();
        let Some(size) = size_of(disk, path)? else {
            return Ok(None);
        };
        let mut reader = SizedFileReader::new(disk, path, size);
        let answer = self
            .shard
            .get_file_reconstruction_info(alloc, &mut reader, hash);
        of_disk(answer, reader.was_out_of_memory())
    }

    /// The run of a query, as `MDBShardInfo::chunk_hash_dedup_query` finds it. None also if there is no file. If bytes
    /// are malformed, the error is that of the first check that fails.
    pub fn chunk_hash_dedup_query<D: Disk>(
        &self,
        alloc: Global,
        disk: &mut D,
        query: &[MerkleHash],
    ) -> Result<Option<(usize, FileDataSequenceEntry)>, StoreError>
        ensures present { D.tells disk.old ≡ true → (f : File) → file_at (D.files disk.old) self.now.path ≡ Some f → AnswersRun self.now.shard query.now f.bytes result }
        ensures absent { D.tells disk.old ≡ true → file_at (D.files disk.old) self.now.path ≡ None → GivesUnlessDisk (λ found. found) result (Ok None) }
        ensures shape { IfOk result (λ run. IfSome run (IsRunFor query.now)) }
        ensures frame { Unchanged D.files D.tells D.faults disk.old disk.new }
        ensures reason { IfErr result (IsQueryError (D.faults disk.old) (D.faults disk.new)) }
    {
        let path = self.path.as_str();
        let Some(size) = size_of(disk, path)? else {
            return Ok(None);
        };
        let mut reader = SizedFileReader::new(disk, path, size);
        let answer = self.shard.chunk_hash_dedup_query(alloc, &mut reader, query);
        of_disk(answer, reader.was_out_of_memory())
    }

    /// The run of a query that starts at index `place` of the xorb whose header is in row `row`, as
    /// `MDBShardInfo::chunk_hash_dedup_query_direct` finds it. None also if there is no file. Errors are those of
    /// `chunk_hash_dedup_query`.
    pub fn chunk_hash_dedup_query_direct<D: Disk>(
        &self,
        alloc: Global,
        disk: &mut D,
        query: &[MerkleHash],
        row: u32,
        place: u32,
    ) -> Result<Option<(usize, FileDataSequenceEntry)>, StoreError>
        ensures present { D.tells disk.old ≡ true → (f : File) → file_at (D.files disk.old) self.now.path ≡ Some f → AnswersRunAt self.now.shard query.now row place f.bytes result }
        ensures absent { D.tells disk.old ≡ true → file_at (D.files disk.old) self.now.path ≡ None → GivesUnlessDisk (λ found. found) result (Ok None) }
        ensures shape { IfOk result (λ run. IfSome run (IsRunFor query.now)) }
        ensures frame { Unchanged D.files D.tells D.faults disk.old disk.new }
        ensures reason { IfErr result (IsQueryError (D.faults disk.old) (D.faults disk.new)) }
    {
        let path = self.path.as_str();
        let Some(size) = size_of(disk, path)? else {
            return Ok(None);
        };
        let mut reader = SizedFileReader::new(disk, path, size);
        let answer = self
            .shard
            .chunk_hash_dedup_query_direct(alloc, &mut reader, query, row, place);
        of_disk(answer, reader.was_out_of_memory())
    }

    /// The same for a row that is known to have a header, as `MDBShardInfo::chunk_hash_dedup_query_in_row` finds it.
    pub fn chunk_hash_dedup_query_in_row<D: Disk>(
        &self,
        alloc: Global,
        disk: &mut D,
        query: &[MerkleHash],
        row: u32,
        place: u32,
    ) -> Result<Option<(usize, FileDataSequenceEntry)>, StoreError>
        ensures present { D.tells disk.old ≡ true → (f : File) → file_at (D.files disk.old) self.now.path ≡ Some f → GivesUnlessDisk (λ run. run) result (run_in self.now.shard.metadata query.now row place f.bytes) }
        ensures absent { D.tells disk.old ≡ true → file_at (D.files disk.old) self.now.path ≡ None → GivesUnlessDisk (λ found. found) result (Ok None) }
        ensures shape { IfOk result (λ run. IfSome run (IsRunFor query.now)) }
        ensures frame { Unchanged D.files D.tells D.faults disk.old disk.new }
        ensures reason { IfErr result (IsQueryError (D.faults disk.old) (D.faults disk.new)) }
    {
        let path = self.path.as_str();
        let Some(size) = size_of(disk, path)? else {
            return Ok(None);
        };
        let mut reader = SizedFileReader::new(disk, path, size);
        let answer = self
            .shard
            .chunk_hash_dedup_query_in_row(alloc, &mut reader, query, row, place);
        of_disk(answer, reader.was_out_of_memory())
    }
}
