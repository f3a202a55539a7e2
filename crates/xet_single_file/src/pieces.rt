//! Bytes are added to a file in pieces.

ghost use Rattle.std.specs.Prelude.{◌≡◌, ◌≤◌, ◌<◌, ◌+◌, ◌++◌, ℕ, Err, List, IfErr, OnErr, OnOk, length};
ghost use Rattle.std.specs.List.{slice_range};
ghost use Rattle.std.specs.Option.{ForSome};
ghost use Rattle.xet_clean.specs.Cleaner.{IsCleaning, IsCleaningSome};
ghost use Rattle.xet_clean.specs.Errors.{IsCleanerError};
ghost use Rattle.xet_clean.specs.Planning.{IsFew};
ghost use Rattle.xet_clean.specs.Policies.{HasBytesBy};
ghost use Rattle.xet_store.specs.Interface.{IsErrorSince};
ghost use Rattle.xet_store.specs.Holders.{FollowsAsking};

use bytes::Bytes;
use xet_clean::{FileCleaner, Sha256Generator, Sha256Policy};
use xet_hash::{StoreError, What};
use xet_store::Stepping;

/// Adds bytes to a file and to its SHA-256. They are those of `shared` if there is such a buffer, and the chunks share it then. If
/// the file would be longer than the limits allow, nothing is done.
pub(crate) fn add_all<S: Stepping>(
    cleaner: &mut FileCleaner<S>,
    generator: &mut Sha256Generator,
    policy: &Sha256Policy,
    bytes: &[u8],
    shared: Option<&Bytes>,
) -> Result<(), StoreError>
    requires shared { ForSome shared (λ whole. whole.now ≡ bytes.now) }
    requires cleaning { IsCleaningSome (S.holder cleaner.old.deduper.start.value.steps) (S.holder cleaner.old.deduper.interface.steps) cleaner.old.deduper.whole cleaner.old.deduper.plan cleaner.old.deduper.global cleaner.old.chunker cleaner.old.byte_count }
    ensures cleaning { (before : List ℕ) → IsCleaning (S.holder cleaner.old.deduper.start.value.steps) (S.holder cleaner.old.deduper.interface.steps) cleaner.old.deduper.whole cleaner.old.deduper.plan cleaner.old.deduper.global cleaner.old.chunker cleaner.old.byte_count before
        → OnOk result (IsCleaning (S.holder cleaner.new.deduper.start.value.steps) (S.holder cleaner.new.deduper.interface.steps) cleaner.new.deduper.whole cleaner.new.deduper.plan cleaner.new.deduper.global cleaner.new.chunker cleaner.new.byte_count (before ++ bytes.now)) }
    ensures hashed { (before : List ℕ) → HasBytesBy policy.now generator.old before → OnOk result (HasBytesBy policy.now generator.new (before ++ bytes.now)) }
    ensures same { (cleaner.new.deduper.start.value ≡ cleaner.old.deduper.start.value) × (cleaner.new.number ≡ cleaner.old.number) × (cleaner.new.deduper.file_id ≡ cleaner.old.deduper.file_id) }
    ensures follows { FollowsAsking (S.holder cleaner.old.deduper.interface.steps) (S.holder cleaner.new.deduper.interface.steps) }
    ensures few { (before : List ℕ) → IsCleaning (S.holder cleaner.old.deduper.start.value.steps) (S.holder cleaner.old.deduper.interface.steps) cleaner.old.deduper.whole cleaner.old.deduper.plan cleaner.old.deduper.global cleaner.old.chunker cleaner.old.byte_count before
        → OnErr result (IsFew (S.holder cleaner.new.deduper.start.value.steps) (S.holder cleaner.new.deduper.interface.steps) (before ++ bytes.now)) }
    ensures long { (S.holder cleaner.old.deduper.interface.steps).limits.max_source_bytes < cleaner.old.byte_count + length bytes.now → (result ≡ Err (StoreError.TooLarge (What.Source cleaner.old.number))) × (cleaner.new ≡ cleaner.old) }
    ensures refused { IfErr result (IsCleanerError cleaner.old.number cleaner.old.byte_count bytes.now (S.holder cleaner.old.deduper.interface.steps) (S.holder cleaner.new.deduper.interface.steps)) }
{
    let most = cleaner.deduper.interface.steps.limits().max_source_bytes();
    if bytes.len() as u64 > most - cleaner.byte_count {
        return Err(StoreError::TooLarge(What::Source(cleaner.number)));
    }
    let added = add_pieces(cleaner, generator, policy, bytes, shared);
    if let Some(whole) = shared {
        cleaner.release(whole.len());
    }
    added
}

/// Adds bytes that the limits allow, in pieces of the length of a block. The chunks that end in a piece are one batch.
fn add_pieces<S: Stepping>(
    cleaner: &mut FileCleaner<S>,
    generator: &mut Sha256Generator,
    policy: &Sha256Policy,
    bytes: &[u8],
    shared: Option<&Bytes>,
) -> Result<(), StoreError>
    requires shared { ForSome shared (λ whole. whole.now ≡ bytes.now) }
    requires cleaning { IsCleaningSome (S.holder cleaner.old.deduper.start.value.steps) (S.holder cleaner.old.deduper.interface.steps) cleaner.old.deduper.whole cleaner.old.deduper.plan cleaner.old.deduper.global cleaner.old.chunker cleaner.old.byte_count }
    requires short { cleaner.old.byte_count + length bytes.now ≤ (S.holder cleaner.old.deduper.interface.steps).limits.max_source_bytes }
    ensures cleaning { (before : List ℕ) → IsCleaning (S.holder cleaner.old.deduper.start.value.steps) (S.holder cleaner.old.deduper.interface.steps) cleaner.old.deduper.whole cleaner.old.deduper.plan cleaner.old.deduper.global cleaner.old.chunker cleaner.old.byte_count before
        → OnOk result (IsCleaning (S.holder cleaner.new.deduper.start.value.steps) (S.holder cleaner.new.deduper.interface.steps) cleaner.new.deduper.whole cleaner.new.deduper.plan cleaner.new.deduper.global cleaner.new.chunker cleaner.new.byte_count (before ++ bytes.now)) }
    ensures hashed { (before : List ℕ) → HasBytesBy policy.now generator.old before → OnOk result (HasBytesBy policy.now generator.new (before ++ bytes.now)) }
    ensures same { (cleaner.new.deduper.start.value ≡ cleaner.old.deduper.start.value) × (cleaner.new.number ≡ cleaner.old.number) × (cleaner.new.deduper.file_id ≡ cleaner.old.deduper.file_id) }
    ensures follows { FollowsAsking (S.holder cleaner.old.deduper.interface.steps) (S.holder cleaner.new.deduper.interface.steps) }
    ensures few { (before : List ℕ) → IsCleaning (S.holder cleaner.old.deduper.start.value.steps) (S.holder cleaner.old.deduper.interface.steps) cleaner.old.deduper.whole cleaner.old.deduper.plan cleaner.old.deduper.global cleaner.old.chunker cleaner.old.byte_count before
        → OnErr result (IsFew (S.holder cleaner.new.deduper.start.value.steps) (S.holder cleaner.new.deduper.interface.steps) (before ++ bytes.now)) }
    ensures refused { IfErr result (IsErrorSince (S.holder cleaner.old.deduper.interface.steps) (S.holder cleaner.new.deduper.interface.steps)) }
{
    let most = cleaner.deduper.interface.steps.limits().block_bytes() as usize;
    let mut from = 0;
    'pieces: while bytes.len() - from > most {
        let to = from + most;
        add_piece(cleaner, generator, policy, bytes, shared, from, to)?;
        from = to;
    }
    add_piece(cleaner, generator, policy, bytes, shared, from, bytes.len())
}

/// Adds bytes FROM..TO of `bytes`, TO excluded.
fn add_piece<S: Stepping>(
    cleaner: &mut FileCleaner<S>,
    generator: &mut Sha256Generator,
    policy: &Sha256Policy,
    bytes: &[u8],
    shared: Option<&Bytes>,
    from: usize,
    to: usize,
) -> Result<(), StoreError>
    requires shared { ForSome shared (λ whole. whole.now ≡ bytes.now) }
    requires order { from ≤ to }
    requires within { to ≤ length bytes.now }
    requires cleaning { IsCleaningSome (S.holder cleaner.old.deduper.start.value.steps) (S.holder cleaner.old.deduper.interface.steps) cleaner.old.deduper.whole cleaner.old.deduper.plan cleaner.old.deduper.global cleaner.old.chunker cleaner.old.byte_count }
    ensures cleaning { (before : List ℕ) → IsCleaning (S.holder cleaner.old.deduper.start.value.steps) (S.holder cleaner.old.deduper.interface.steps) cleaner.old.deduper.whole cleaner.old.deduper.plan cleaner.old.deduper.global cleaner.old.chunker cleaner.old.byte_count before
        → OnOk result (IsCleaning (S.holder cleaner.new.deduper.start.value.steps) (S.holder cleaner.new.deduper.interface.steps) cleaner.new.deduper.whole cleaner.new.deduper.plan cleaner.new.deduper.global cleaner.new.chunker cleaner.new.byte_count (before ++ slice_range bytes.now from to)) }
    ensures hashed { (before : List ℕ) → HasBytesBy policy.now generator.old before → OnOk result (HasBytesBy policy.now generator.new (before ++ slice_range bytes.now from to)) }
    ensures same { (cleaner.new.deduper.start.value ≡ cleaner.old.deduper.start.value) × (cleaner.new.number ≡ cleaner.old.number) × (cleaner.new.deduper.file_id ≡ cleaner.old.deduper.file_id) }
    ensures follows { FollowsAsking (S.holder cleaner.old.deduper.interface.steps) (S.holder cleaner.new.deduper.interface.steps) }
    ensures few { (before : List ℕ) → IsCleaning (S.holder cleaner.old.deduper.start.value.steps) (S.holder cleaner.old.deduper.interface.steps) cleaner.old.deduper.whole cleaner.old.deduper.plan cleaner.old.deduper.global cleaner.old.chunker cleaner.old.byte_count before
        → OnErr result (IsFew (S.holder cleaner.new.deduper.start.value.steps) (S.holder cleaner.new.deduper.interface.steps) (before ++ slice_range bytes.now from to)) }
    ensures refused { IfErr result (IsCleanerError cleaner.old.number cleaner.old.byte_count (slice_range bytes.now from to) (S.holder cleaner.old.deduper.interface.steps) (S.holder cleaner.new.deduper.interface.steps)) }
{
    generator.update_by(policy, &bytes[from..to]);
    match shared {
        Some(whole) => match whole.slice(from..to) {
            Ok(part) => cleaner.add_shared(&part),
            Err(_) => Err(StoreError::OutOfMemory),
        },
        None => cleaner.add(&bytes[from..to]),
    }
}
