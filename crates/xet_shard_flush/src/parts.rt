//! Reading of the parts of a shard whose bytes are given.

ghost use Rattle.std.specs.Prelude.{◌≡◌, IfErr};
ghost use Rattle.xet_shard.specs.Sections.{chunk_lookup_in, info_at};
ghost use Rattle.xet_shard_directory.specs.Answers.{GivesUnlessDisk};
ghost use Rattle.xet_shard_directory.specs.Writing.{IsFormatError};
ghost use Rattle.xet_shard_flush.specs.internal.Steps.{IsPartError};
ghost use Rattle.xet_shard_format.specs.Lookups.{flat_places};

use std::alloc::Global;
use xet_hash::StoreError;
use xet_io::SliceReader;
use xet_shard::MDBShardInfo;

/// The header and the footer of a shard with these bytes. Allocates nothing.
pub(crate) fn info_of_bytes(bytes: &[u8]) -> Result<MDBShardInfo, StoreError>
    ensures exact { result ≡ info_at bytes.now }
    ensures error { IfErr result IsFormatError }
{
    let mut reader = SliceReader::new(bytes);
    MDBShardInfo::load_from_reader(&mut reader)
}

/// The chunk lookup table of a shard with these bytes.
pub(crate) fn items_of_bytes(
    alloc: Global,
    info: &MDBShardInfo,
    bytes: &[u8],
) -> Result<Vec<(u64, (u32, u32))>, StoreError>
    ensures exact { GivesUnlessDisk (λ v. flat_places v.items) result (chunk_lookup_in info.now.metadata bytes.now) }
    ensures error { IfErr result IsPartError }
{
    let mut reader = SliceReader::new(bytes);
    info.read_all_truncated_hashes(alloc, &mut reader)
}
