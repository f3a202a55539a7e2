//! A shard in memory, to which records are added until it is written.

ghost use Rattle.std.specs.Prelude.{◌≡◌, ◌≢◌, ◌↔◌, ◌<◌, ◌^◌, ◌++◌, ℕ, IfErr, IfOk, IsErrOf, IsOkUnless, IsTrue, OnErr, OnOk, length, map, nat_eq, option_map, take, true, unwrap_or};
ghost use Rattle.std.specs.List.{sum_by};
ghost use Rattle.std.specs.Cmp.Lexicographic.{pointwise};
ghost use Rattle.indexmap.specs.IndexMap.{get, values};
ghost use Rattle.xet_shard.specs.Held.{DifferBy, Held, IsHeld, Keyed, by_hash, held_shard, held_size, nothing, with_last};
ghost use Rattle.xet_shard.specs.WriteErrors.{IsWriteError};
ghost use Rattle.xet_shard_format.specs.RecordSizes.{file_record_size, xorb_record_size};
ghost use Rattle.xet_shard_format.specs.Lookups.{all_lookups};
ghost use Rattle.xet_shard_format.specs.Encoding.{Fits, IsShard, footer_of, full_shard_bytes, header};
ghost use Rattle.xet_hash.specs.Hash.{sentinel};
ghost use Rattle.xet_shard_format.specs.Records.{IsFile, IsXorb, file_record_hash, file_section, xorb_record_hash, xorb_section};
ghost use Rattle.xet_io.specs.Frame.{Called};

mod places;
mod queries;

use crate::info::MDBShardInfo;
use crate::write::{write_bytes, write_shard};
use indexmap::IndexMap;
use places::{LastPlaces, put_block};
use std::alloc::{AllocError, Global};
use std::marker::Model;
use xet_hash::{HMACKey, MerkleHash, Place, StoreError};
use xet_io::Sink;
use xet_shard_format::section::Record;
use xet_shard_format::{MDBFileInfo, MDBXorbInfo};

/// The length in bytes of a shard without records.
const EMPTY_SIZE: u64 = 344;

/// Files and xorbs that are to be written as a shard, each hash once. Contracts see them in the order in
/// which they were added.
#[derive(Drop)]
pub struct MDBInMemoryShard {
    /// The xorbs, in the order in which they were added.
    blocks: IndexMap<MerkleHash, MDBXorbInfo>,
    /// The files, in the order in which they were added.
    files: IndexMap<MerkleHash, MDBFileInfo>,
    /// The last position of each chunk hash in the xorbs.
    places: LastPlaces,
    /// Memory for that map when it is built anew. Its entries are of no use.
    spare_places: LastPlaces,
    /// The length in bytes of the shard that would be written.
    size: u64,
}

impl Model for MDBInMemoryShard {
    ghost use Rattle.indexmap.specs.IndexMap.{values};
    ghost use Rattle.std.specs.Prelude.{◌≡◌};
    ghost use Rattle.xet_shard.specs.Held.{Held, IsHeld, Keyed, held_size};
    ghost use Rattle.xet_shard.specs.LastPlaces.{HasPlaces};
    ghost use Rattle.xet_shard_format.specs.Records.{file_record_hash, xorb_record_hash};

    ghost Value = { Held };

    ghost view = { λ s. record { blocks = values s.blocks; files = values s.files } };

    ghost invariant = { λ s. Keyed xorb_record_hash s.blocks.entries × Keyed file_record_hash s.files.entries
        × IsHeld (record { blocks = values s.blocks; files = values s.files })
        × HasPlaces s.places.entries (values s.blocks)
        × (s.size ≡ held_size (record { blocks = values s.blocks; files = values s.files })) };
}

impl MDBInMemoryShard {
    /// A shard without records. Allocates nothing.
    pub fn new(alloc: Global) -> MDBInMemoryShard
        ensures { result ≡ nothing }
    {
        MDBInMemoryShard {
            blocks: IndexMap::new(alloc),
            files: IndexMap::new(alloc),
            places: IndexMap::new(alloc),
            spare_places: IndexMap::new(alloc),
            size: EMPTY_SIZE,
        }
    }

    /// Proof aid without effect: makes the invariant `IsHeld` available to the caller.
    pub fn recall_invariant(&self)
        ensures { IsHeld self.now }
    {
        let _ = &self.blocks;
    }

    /// Whether the shard has no records.
    pub fn is_empty(&self) -> bool
        ensures { IsTrue result ↔ (self.now ≡ nothing) }
    {
        self.blocks.is_empty() && self.files.is_empty()
    }

    /// The length in bytes of the shard that `serialize_from` writes.
    pub fn shard_file_size(&self) -> u64
        ensures { result ≡ held_size self.now }
    {
        self.size
    }

    /// Adds a xorb at the end, and removes one of an equal hash. The caller ensures that the record is well
    /// formed, that its hash is not the sentinel, and that the section has fewer than 2^32 rows then. The
    /// only error is `StoreError::OutOfMemory`; the shard is then unchanged.
    pub fn add_xorb_block(&mut self, block: MDBXorbInfo) -> Result<(), StoreError>
        requires form { IsXorb block }
        requires hash { xorb_record_hash block ≢ sentinel }
        requires few { length (xorb_section (with_last xorb_record_hash self.old.blocks block)) < 2 ^ 32 }
        ensures added { OnOk result (self.new ≡ record { blocks = with_last xorb_record_hash self.old.blocks block; files = self.old.files }) }
        ensures kept { OnErr result (self.new ≡ self.old) }
        ensures memory { IsOkUnless result StoreError.OutOfMemory }
    {
        let replaced = size_at(&self.blocks, &block.hash());
        let added = block.num_bytes();
        put_block(
            &mut self.blocks,
            &mut self.places,
            &mut self.spare_places,
            block,
        )?;
        self.size = self.size - replaced + added;
        Ok(())
    }

    /// Adds a file at the end, and removes one of an equal hash. The caller ensures the same as for
    /// `add_xorb_block`. The only error is `StoreError::OutOfMemory`; the shard is then unchanged.
    pub fn add_file_reconstruction_info(&mut self, file: MDBFileInfo) -> Result<(), StoreError>
        requires form { IsFile file }
        requires hash { file_record_hash file ≢ sentinel }
        requires few { length (file_section (with_last file_record_hash self.old.files file)) < 2 ^ 32 }
        ensures added { OnOk result (self.new ≡ record { blocks = self.old.blocks; files = with_last file_record_hash self.old.files file }) }
        ensures kept { OnErr result (self.new ≡ self.old) }
        ensures memory { IsOkUnless result StoreError.OutOfMemory }
    {
        let replaced = size_at(&self.files, &file.hash());
        let added = file.num_bytes();
        put_last(&mut self.files, file)?;
        self.size = self.size - replaced + added;
        Ok(())
    }

    /// Takes the memory for one more record: a file, or a xorb of at most this many chunks. Adding it then allocates
    /// nothing, also if it replaces one of an equal hash. The only error is `StoreError::OutOfMemory`. The records are the
    /// same in either case.
    pub fn reserve(&mut self, chunks: usize) -> Result<(), StoreError>
        ensures kept { self.new ≡ self.old }
        ensures memory { IsOkUnless result StoreError.OutOfMemory }
    {
        self.blocks.reserve(1)?;
        self.files.reserve(1)?;
        self.places.reserve(chunks)?;
        self.spare_places.clear();
        self.spare_places
            .reserve(self.places.len().saturating_add(chunks))?;
        Ok(())
    }

    /// Writes the shard to a sink, and returns its header and footer. Files and xorbs are in ascending order
    /// of hash; all lookup tables are there, and there is no key. `creation` and `expiry` are in seconds
    /// since the Unix epoch; with `None` the shard does not expire. The error is `Io(Output)` if the sink
    /// failed, or `OutOfMemory`.
    pub fn serialize_from<W: Sink>(
        &self,
        alloc: Global,
        sink: &mut W,
        creation: u64,
        expiry: Option<u64>,
    ) -> Result<MDBShardInfo, StoreError>
        ensures written { W.tells sink.old ≡ true → OnOk result (W.written sink.new ≡ W.written sink.old ++ full_shard_bytes (held_shard self.now creation expiry)) }
        // In every case a prefix of the encoding was written.
        ensures prefix { W.tells sink.old ≡ true → (n : ℕ) × (W.written sink.new ≡ W.written sink.old ++ take n (full_shard_bytes (held_shard self.now creation expiry))) }
        ensures info { IfOk result (λ info. info ≡ record { header = header; metadata = footer_of all_lookups (held_shard self.now creation expiry) }) }
        ensures shard { OnOk result (IsShard (held_shard self.now creation expiry)) }
        ensures fits { OnOk result (Fits (held_shard self.now creation expiry)) }
        ensures size { OnOk result (length (full_shard_bytes (held_shard self.now creation expiry)) ≡ held_size self.now) }
        ensures errors { IfErr result IsWriteError }
        ensures frame { Called W.tells W.faults sink.old sink.new (IsErrOf result (StoreError.Io Place.Output)) }
    {
        let (encoding, info) = self.shard_bytes(alloc, creation, expiry)?;
        write_bytes(sink, &encoding)?;
        Ok(info)
    }

    /// Encodes the shard as `serialize_from` writes it, and also returns its header and footer. The only
    /// error is `StoreError::OutOfMemory`.
    pub fn shard_bytes(
        &self,
        alloc: Global,
        creation: u64,
        expiry: Option<u64>,
    ) -> Result<(Vec<u8>, MDBShardInfo), StoreError>
        ensures encoding { IfOk result (λ x. x.0.items ≡ full_shard_bytes (held_shard self.now creation expiry)) }
        ensures info { IfOk result (λ x. x.1 ≡ record { header = header; metadata = footer_of all_lookups (held_shard self.now creation expiry) }) }
        ensures shard { OnOk result (IsShard (held_shard self.now creation expiry)) }
        ensures fits { OnOk result (Fits (held_shard self.now creation expiry)) }
        ensures memory { IsOkUnless result StoreError.OutOfMemory }
    {
        let blocks = by_hash(alloc, &self.blocks)?;
        let files = by_hash(alloc, &self.files)?;
        let expiry = expiry.unwrap_or(u64::MAX);
        write_shard(alloc, &blocks, &files, HMACKey::default(), creation, expiry)
    }
}

/// A record that adds bytes to a shard.
trait Measured {
    ghost use Rattle.std.specs.Prelude.{ℕ, ◌≡◌, ◌<◌, ◌^◌};
    ghost use Rattle.xet_io.specs.Frame.{Called};

    /// The number of these bytes.
    ghost size: { Self → ℕ };

    fn size(&self) -> u64
        requires { size self.now < 2 ^ 64 }
        ensures { result ≡ size self.now };
}

impl Measured for MDBXorbInfo {
    ghost size = { xorb_record_size };

    fn size(&self) -> u64 {
        self.num_bytes()
    }
}

impl Measured for MDBFileInfo {
    ghost size = { file_record_size };

    fn size(&self) -> u64 {
        self.num_bytes()
    }
}

/// Adds a record at the end, and removes one of an equal hash. After an error the records are unchanged.
fn put_last<X: Record>(table: &mut IndexMap<MerkleHash, X>, value: X) -> Result<(), AllocError>
    requires keyed { Keyed X.hash_of table.old.entries }
    requires differ { DifferBy X.hash_of (values table.old) }
    ensures keyed { Keyed X.hash_of table.new.entries }
    ensures put { OnOk result (values table.new ≡ with_last X.hash_of (values table.old) value) }
    ensures kept { OnErr result (values table.new ≡ values table.old) }
{
    let hash = value.hash();
    table.reserve(1)?;
    let _replaced = table.shift_remove(&hash);
    match table.insert(hash, value) {
        Ok(_) => Ok(()),
        Err(failed) => Err(failed.into()),
    }
}

/// The bytes that the record with a hash adds to a shard; 0 if there is none.
fn size_at<X: Measured>(table: &IndexMap<MerkleHash, X>, hash: &MerkleHash) -> u64
    requires { sum_by X.size (values table.now) < 2 ^ 64 }
    ensures { result ≡ unwrap_or (option_map X.size (get (pointwise nat_eq) table.now hash.now)) 0 }
{
    match table.get(hash) {
        Some(record) => record.size(),
        None => 0,
    }
}

/// The records of a table in ascending order of hash.
fn by_hash<X: Record>(alloc: Global, table: &IndexMap<MerkleHash, X>) -> Result<Vec<&X>, AllocError>
    requires { DifferBy X.hash_of (values table.now) }
    ensures { IfOk result (λ records. map (λ x. x.now) records.items ≡ by_hash X.hash_of (values table.now)) }
{
    let mut records = Vec::with_capacity(alloc, table.len())?;
    for value in table.values() {
        records.push(value)?;
    }
    records.sort_unstable_by_key(|value| value.hash());
    Ok(records)
}
