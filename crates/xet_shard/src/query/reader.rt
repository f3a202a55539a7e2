//! Queries to a shard behind a reader: the file of a hash, and the run of a query.

ghost use Rattle.std.specs.Prelude.{◌≡◌, ◌==◌, ◌∷◌, [], true, IfErr, IfSome, IsErrOf, filter, length, IfOk, nat_le, nat_lt};
ghost use Rattle.xet_shard.specs.Bisection.{AnswersAt};
ghost use Rattle.xet_shard.specs.Queries.{IsFileError, file_in, first_file, found_file, found_run, rows_of, run_in, run_of_word, direct_run, chunk_table, file_table, query_word, xorb_table};
ghost use Rattle.xet_shard.specs.RunForms.{IsRunFor};
ghost use Rattle.xet_codec.specs.Parsing.{GivesUnlessFault};
ghost use Rattle.xet_shard_format.specs.Reading.{IsShardError};
ghost use Rattle.xet_shard_format.specs.Records.{first_word};
ghost use Rattle.xet_io.specs.Frame.{ReadFrom};

use crate::info::MDBShardInfo;
use crate::query::file_record::file_in_row;
use crate::query::lookup_search::{chunk_place, file_items, has_head};
use crate::query::run::kept_hash;
use crate::query::stored_run::run_in;
use crate::reader::sections::row_count;
use std::alloc::Global;
use xet_hash::{MerkleHash, Place, StoreError};
use xet_io::ReadAt;
use xet_shard_format::lookup::RecordItem;
use xet_shard_format::{FileDataSequenceEntry, MDBFileInfo, MDBShardFileFooter};

impl MDBShardInfo {
    /// The file record with a hash, or none if the shard has none. The file lookup table is bisected by the
    /// first word of the hash; if it is omitted, all files are read. Then the files with this word are read.
    /// If eight or more files share the word, the error is `TruncatedHashCollision`. If bytes are malformed,
    /// the error is that of the first check that fails. It is `Io(Input)` if the reader failed.
    pub fn get_file_reconstruction_info<R: ReadAt>(
        &self,
        alloc: Global,
        reader: &mut R,
        hash: &MerkleHash,
    ) -> Result<Option<MDBFileInfo>, StoreError>
        ensures exact { R.tells reader.old ≡ true → AnswersAt (λ i. nat_lt i.0 (first_word hash.now)) (file_table self.now.metadata (R.bytes reader.old)) (λ file. file) result (λ index. found_file self.now.metadata hash.now index (R.bytes reader.old)) }
        ensures errors { IfErr result IsFileError }
        ensures frame { ReadFrom R.bytes R.tells R.faults R.lent reader.old reader.new (IsErrOf result (StoreError.Io Place.Input)) }
    {
        let items = file_items(alloc, reader, &self.metadata, hash.word(0))?;
        if count_of(hash.word(0), &items) >= 8 {
            return Err(StoreError::TruncatedHashCollision);
        }
        first_file(alloc, reader, &self.metadata, hash, &items)
    }

    /// The run of a query: how many of its first hashes are those of consecutive chunks of a xorb, and the
    /// segment of these chunks. The run starts at the last item of the chunk lookup table with the first word
    /// of the first hash. None if there is no such item, if it leads to no chunk with the first hash, or if
    /// the query is empty. If the shard is keyed, hashes are compared under its key.
    /// The table is bisected; if it is omitted, all xorbs are read. Then the rows of the run are read. If
    /// bytes are malformed, the error is that of the first check that fails. It is `Io(Input)` if the reader
    /// failed.
    pub fn chunk_hash_dedup_query<R: ReadAt>(
        &self,
        alloc: Global,
        reader: &mut R,
        query: &[MerkleHash],
    ) -> Result<Option<(usize, FileDataSequenceEntry)>, StoreError>
        ensures exact { R.tells reader.old ≡ true → AnswersAt (λ i. nat_le i.0 (query_word self.now.metadata query.now)) (chunk_table self.now.metadata (R.bytes reader.old)) (λ run. run) result (λ index. found_run self.now.metadata query.now index (R.bytes reader.old)) }
        ensures shape { IfOk result (λ run. IfSome run (IsRunFor query.now)) }
        ensures errors { IfErr result IsShardError }
        ensures frame { ReadFrom R.bytes R.tells R.faults R.lent reader.old reader.new (IsErrOf result (StoreError.Io Place.Input)) }
    {
        match query.first() {
            Some(first) => {
                let key = &self.metadata.chunk_hash_hmac_key;
                let word = kept_hash(key, first).word(0);
                run_of_word(alloc, reader, self, query, word)
            }
            None => Ok(None),
        }
    }

    /// The run of a query that starts at a given chunk: index `place` of the xorb whose header is in row
    /// `row`, counted from the start of the section. None if no header is in the row, if the xorb has no such
    /// chunk, if the chunk has another hash, or if the query is empty.
    /// The xorb lookup table is bisected by the row; if it is omitted, all xorbs are read. Then the rows of
    /// the run are read. Errors are those of `chunk_hash_dedup_query`.
    pub fn chunk_hash_dedup_query_direct<R: ReadAt>(
        &self,
        alloc: Global,
        reader: &mut R,
        query: &[MerkleHash],
        row: u32,
        place: u32,
    ) -> Result<Option<(usize, FileDataSequenceEntry)>, StoreError>
        ensures exact { R.tells reader.old ≡ true → AnswersAt (λ i. nat_lt i.1 row) (xorb_table self.now.metadata (R.bytes reader.old)) (λ run. run) result (λ index. direct_run self.now.metadata query.now row place index (R.bytes reader.old)) }
        ensures shape { IfOk result (λ run. IfSome run (IsRunFor query.now)) }
        ensures errors { IfErr result IsShardError }
        ensures frame { ReadFrom R.bytes R.tells R.faults R.lent reader.old reader.new (IsErrOf result (StoreError.Io Place.Input)) }
    {
        if query.is_empty() {
            return Ok(None);
        }
        if has_head(alloc, reader, &self.metadata, row)? {
            run_in(alloc, reader, &self.metadata, query, row, place)
        } else {
            Ok(None)
        }
    }

    /// The run of a query that starts at index `place` of the xorb whose header is in row `row`, for a row that is known
    /// to have a header, such as that of an item of the chunk lookup table. No lookup table is read: a row without a
    /// header is read as if it had one, and a row that the section does not have is `MalformedData`, also for an empty
    /// query. Errors are those of `chunk_hash_dedup_query`.
    pub fn chunk_hash_dedup_query_in_row<R: ReadAt>(
        &self,
        alloc: Global,
        reader: &mut R,
        query: &[MerkleHash],
        row: u32,
        place: u32,
    ) -> Result<Option<(usize, FileDataSequenceEntry)>, StoreError>
        ensures exact { R.tells reader.old ≡ true → GivesUnlessFault (λ run. run) result (run_in self.now.metadata query.now row place (R.bytes reader.old)) }
        ensures shape { IfOk result (λ run. IfSome run (IsRunFor query.now)) }
        ensures errors { IfErr result IsShardError }
        ensures frame { ReadFrom R.bytes R.tells R.faults R.lent reader.old reader.new (IsErrOf result (StoreError.Io Place.Input)) }
    {
        run_in(alloc, reader, &self.metadata, query, row, place)
    }
}

/// The number of items with this word.
fn count_of(word: u64, items: &[RecordItem]) -> usize
    ensures { result ≡ length (filter (λ i. i.0 == word) items.now) }
{
    items.iter().filter(|item| item.0 == word).count()
}

/// The first file with this hash, of those in the rows of the items with the hash's first word.
fn first_file<R: ReadAt>(
    alloc: Global,
    reader: &mut R,
    f: &MDBShardFileFooter,
    hash: &MerkleHash,
    items: &[RecordItem],
) -> Result<Option<MDBFileInfo>, StoreError>
    ensures exact { R.tells reader.old ≡ true → GivesUnlessFault (λ x. x) result (first_file f.now hash.now (rows_of (first_word hash.now) items.now) (R.bytes reader.old)) }
    ensures errors { IfErr result IsShardError }
    ensures frame { ReadFrom R.bytes R.tells R.faults R.lent reader.old reader.new (IsErrOf result (StoreError.Io Place.Input)) }
{
    for item in items {
        match file_of(alloc, reader, f, hash, *item)? {
            Some(file) => return Ok(Some(file)),
            None => {}
        }
    }
    Ok(None)
}

/// The file in the row of an item, if it has this hash.
fn file_of<R: ReadAt>(
    alloc: Global,
    reader: &mut R,
    f: &MDBShardFileFooter,
    hash: &MerkleHash,
    item: RecordItem,
) -> Result<Option<MDBFileInfo>, StoreError>
    ensures exact { R.tells reader.old ≡ true → GivesUnlessFault (λ x. x) result (first_file f.now hash.now (rows_of (first_word hash.now) (item ∷ [])) (R.bytes reader.old)) }
    ensures errors { IfErr result IsShardError }
    ensures frame { ReadFrom R.bytes R.tells R.faults R.lent reader.old reader.new (IsErrOf result (StoreError.Io Place.Input)) }
{
    if item.0 != hash.word(0) {
        return Ok(None);
    }
    let file = file_in(alloc, reader, f, item.1)?;
    if *hash == file.hash() {
        Ok(Some(file))
    } else {
        Ok(None)
    }
}

/// The run of a query at the last chunk with the first word `word`.
fn run_of_word<R: ReadAt>(
    alloc: Global,
    reader: &mut R,
    info: &MDBShardInfo,
    query: &[MerkleHash],
    word: u64,
) -> Result<Option<(usize, FileDataSequenceEntry)>, StoreError>
    ensures exact { R.tells reader.old ≡ true → AnswersAt (λ i. nat_le i.0 word) (chunk_table info.now.metadata (R.bytes reader.old)) (λ x. x) result (λ index. run_of_word info.now.metadata query.now word index (R.bytes reader.old)) }
    ensures shape { IfOk result (λ run. IfSome run (IsRunFor query.now)) }
    ensures errors { IfErr result IsShardError }
    ensures frame { ReadFrom R.bytes R.tells R.faults R.lent reader.old reader.new (IsErrOf result (StoreError.Io Place.Input)) }
{
    match chunk_place(alloc, reader, &info.metadata, word)? {
        Some((row, place)) => run_in(alloc, reader, &info.metadata, query, row, place),
        None => Ok(None),
    }
}

/// The file whose header is in row `row`.
fn file_in<R: ReadAt>(
    alloc: Global,
    reader: &mut R,
    f: &MDBShardFileFooter,
    row: u32,
) -> Result<MDBFileInfo, StoreError>
    ensures exact { R.tells reader.old ≡ true → GivesUnlessFault (λ x. x) result (file_in f.now row (R.bytes reader.old)) }
    ensures errors { IfErr result IsShardError }
    ensures frame { ReadFrom R.bytes R.tells R.faults R.lent reader.old reader.new (IsErrOf result (StoreError.Io Place.Input)) }
{
    let count = row_count(f.file_info_offset, f.xorb_info_offset)?;
    file_in_row(alloc, reader, f.file_info_offset, count, row)
}
