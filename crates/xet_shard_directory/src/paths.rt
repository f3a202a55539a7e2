//! Paths of shard files.

ghost use Rattle.std.specs.Prelude.{◌≡◌};
ghost use Rattle.xet_shard_directory.specs.Values.{last_part};

/// The part of a path after its last slash; all of it if it has none.
pub(crate) fn last_part(path: &str) -> &str
    ensures { result.now ≡ last_part path.now }
{
    match path.rsplit_once('/') {
        Some((_, name)) => name,
        None => path,
    }
}
