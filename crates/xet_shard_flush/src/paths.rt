//! Paths under which a shard may be written.

ghost use Rattle.std.specs.Prelude.{◌≡◌, IfErr, IfOk, if◌then◌else◌, true};
ghost use Rattle.xet_codec.specs.Stops.{HasDiskReason};
ghost use Rattle.xet_io.specs.Frame.{Unchanged};
ghost use Rattle.xet_shard_flush.specs.internal.Steps.{AreExpected, IsWay};

use xet_hash::StoreError;
use xet_io::Disk;
use xet_shard::MDBShardInfo;
use xet_shard_directory::{MDBShardFile, Standing, standing_of};
use xet_shard_registry::ShardRegistry;

/// What is to be done with the bytes of a shard at a path.
#[derive(Clone, Copy, PartialEq, Eq, Debug)]
pub(crate) enum Way {
    /// They are there, and are only made durable.
    Keep,
    /// They are written.
    Write,
    /// Nothing: a registered shard has the path, and its file has other bytes, or is gone and had another header or footer.
    Refuse,
}

/// What is to be done with the bytes of a shard at a path, where these shards are registered. They are not written
/// over other bytes that are at the path of one of these, nor where one of them is gone that had another header or footer.
pub(crate) fn way_of<D: Disk>(
    disk: &mut D,
    path: &str,
    info: &MDBShardInfo,
    registry: &ShardRegistry,
    bytes: &[u8],
) -> Result<Way, StoreError>
    ensures way { D.tells disk.old ≡ true → IfOk result (IsWay (D.files disk.old) path.now info.now registry.now.files bytes.now) }
    ensures frame { Unchanged D.files D.tells D.faults disk.old disk.new }
    ensures reason { IfErr result (HasDiskReason (D.faults disk.old) (D.faults disk.new)) }
{
    match standing_of(disk, path, bytes) {
        Ok(Standing::Same) => Ok(Way::Keep),
        Ok(Standing::Absent) => Ok(write_if(is_expected(path, info, registry))),
        Ok(Standing::Other) => Ok(write_if(!registry.has_path(path))),
        Err(error) => Err(error),
    }
}

/// They are written if that is allowed.
fn write_if(is_allowed: bool) -> Way
    ensures { result ≡ (if is_allowed then Way.Write else Way.Refuse) }
{
    if is_allowed { Way::Write } else { Way::Refuse }
}

/// Whether those of the registered shards that have a path have this header and footer. They are walked only if one has
/// the path.
fn is_expected(path: &str, info: &MDBShardInfo, registry: &ShardRegistry) -> bool
    ensures { result ≡ true → AreExpected path.now info.now registry.now.files }
{
    !registry.has_path(path) || are_expected(path, info, registry.files())
}

/// Whether those of these shard files that have a path have this header and footer.
fn are_expected(path: &str, info: &MDBShardInfo, files: &[MDBShardFile]) -> bool
    ensures { result ≡ true → AreExpected path.now info.now files.now }
{
    for file in files {
        if file.path.as_str() == path && file.shard != *info {
            return false;
        }
    }
    true
}
