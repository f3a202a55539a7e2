//! `FileDigest`: the SHA-256 of a file whose bytes come in blocks.

ghost use Rattle.std.specs.Prelude.{◌≡◌, ◌++◌, [], ℕ, List, Option};
ghost use Rattle.sha2.specs.Sha256.{sha256 as sha256_of};
ghost use Rattle.xet_clean.specs.Policies.{HasBytes, IfComputed, sha256_by};

use crate::policy::{Sha256Generator, Sha256Policy};
use bytes::Bytes;
use std::mem;
use xet_shard_format::Sha256;

/// Computes the SHA-256 of files, one after the other, whose bytes come in blocks: each block when it comes, or later, on another
/// thread.
pub trait FileDigest {
    /// The file was given these bytes so far.
    ghost has: { Self → List ℕ → Type 0 };

    /// Begins a file of no bytes. The one before is given up if it was not ended.
    fn begin(&mut self)
        ensures { has self.new [] };

    /// Takes the next bytes of the file.
    fn add(&mut self, block: &Bytes)
        ensures { (before : List ℕ) → has self.old before → has self.new (before ++ block.now) };

    /// The SHA-256 of all bytes of the file.
    fn end(&mut self) -> Sha256
        ensures { (bytes : List ℕ) → has self.old bytes → result ≡ sha256_of bytes };
}

impl FileDigest for Sha256Generator {
    ghost has = { HasBytes };

    fn begin(&mut self) {
        *self = Sha256Generator::new();
    }

    fn add(&mut self, block: &Bytes) {
        self.update(block.as_slice());
    }

    fn end(&mut self) -> Sha256 {
        mem::replace(self, Sha256Generator::new()).finalize()
    }
}

/// Takes the next bytes of a file if its SHA-256 is computed.
pub(crate) fn add_by<H: FileDigest>(digest: &mut H, policy: &Sha256Policy, block: &Bytes)
    ensures { (before : List ℕ) → IfComputed policy.now (H.has digest.old before) → IfComputed policy.now (H.has digest.new (before ++ block.now)) }
{
    match policy {
        Sha256Policy::Compute => digest.add(block),
        Sha256Policy::Provided(_) => {}
        Sha256Policy::Skip => {}
    }
}

/// The SHA-256 that a file of these bytes gets.
pub(crate) fn end_by<H: FileDigest>(digest: &mut H, policy: &Sha256Policy) -> Option<Sha256>
    ensures { (bytes : List ℕ) → IfComputed policy.now (H.has digest.old bytes) → result ≡ sha256_by policy.now bytes }
{
    match policy {
        Sha256Policy::Compute => Some(digest.end()),
        Sha256Policy::Provided(sha256) => Some(*sha256),
        Sha256Policy::Skip => None,
    }
}
