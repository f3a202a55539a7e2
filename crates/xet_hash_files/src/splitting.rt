//! Splitting a stream into chunks of which only the hash and the length are kept.

ghost use Rattle.std.specs.Prelude.{◌≡◌, ◌++◌, [], ℕ, List, IfOk, IsOkUnless, None, OnOk, drop};
ghost use Rattle.xet_cut.specs.Chunking.{chunking};
ghost use Rattle.xet_cut.specs.Limits.{AreInRange};
ghost use Rattle.xet_cut.specs.Streams.{IsSplit, boundary_in};
ghost use Rattle.xet_hash.specs.Merkle.{leaves_of};
ghost use Rattle.xet_hash_files.specs.internal.Splitting.{AreCut};

use xet_cut::Chunker;
use xet_cut::laws::steps_split;
use xet_hash::{MerkleHash, StoreError, compute_data_hash};

/// Splits the next bytes of a stream, and appends the hash and the length of each chunk that ends in them. Only the first of
/// these chunks is copied, and the bytes after the last; the others are hashed where they lie. The only error is `OutOfMemory`.
pub(crate) fn split_off(
    chunker: &mut Chunker,
    bytes: &[u8],
    leaves: &mut Vec<(MerkleHash, u64)>,
) -> Result<(), StoreError>
    requires range { AreInRange chunker.old.settings }
    ensures split { OnOk result ((parts : List (List ℕ)) × IsSplit chunker.old.settings (chunker.old.buffered ++ bytes.now) parts chunker.new.buffered
        × (leaves.new.items ≡ leaves.old.items ++ leaves_of parts)) }
    ensures settings { chunker.new.settings ≡ chunker.old.settings }
    ensures memory { IsOkUnless result StoreError.OutOfMemory }
{
    chunker.recall_invariant();
    steps_split();
    let (first, from) = chunker.next(bytes, false)?;
    let Some(chunk) = first else {
        return Ok(());
    };
    leaves.push((chunk.hash, chunk.bytes.len() as u64))?;
    let rest = &bytes[from..];
    let taken = push_leaves(chunker, rest, leaves)?;
    let _ = chunker.next(&rest[taken..], false)?;
    Ok(())
}

/// Appends the hash and the length of each chunk that ends in `bytes`, if nothing is buffered before them, and returns the
/// number of bytes of these chunks. The only error is `OutOfMemory`.
fn push_leaves(
    chunker: &Chunker,
    bytes: &[u8],
    leaves: &mut Vec<(MerkleHash, u64)>,
) -> Result<usize, StoreError>
    requires range { AreInRange chunker.now.settings }
    requires empty { chunker.now.buffered ≡ [] }
    ensures cut { IfOk result (λ taken. AreCut chunker.now.settings bytes.now taken leaves.old.items leaves.new.items) }
    ensures unended { IfOk result (λ taken. boundary_in chunker.now.settings (drop taken bytes.now) ≡ None) }
    ensures memory { IsOkUnless result StoreError.OutOfMemory }
{
    let mut taken = 0;
    'chunks: while let Some(n) = chunker.next_boundary(&bytes[taken..]) {
        let hash = compute_data_hash(&bytes[taken..taken + n]);
        leaves.push((hash, n as u64))?;
        taken += n;
    }
    Ok(taken)
}

/// Ends a stream: what is buffered is its last chunk, if anything is, and its hash and length are appended. The only error is
/// `OutOfMemory`.
pub(crate) fn split_rest(
    chunker: &mut Chunker,
    leaves: &mut Vec<(MerkleHash, u64)>,
) -> Result<(), StoreError>
    ensures leaves { OnOk result (leaves.new.items ≡ leaves.old.items ++ leaves_of (chunking chunker.old.settings chunker.old.buffered)) }
    ensures memory { IsOkUnless result StoreError.OutOfMemory }
{
    chunker.recall_invariant();
    let Some(chunk) = chunker.finish()? else {
        return Ok(());
    };
    leaves.push((chunk.hash, chunk.bytes.len() as u64))?;
    Ok(())
}
