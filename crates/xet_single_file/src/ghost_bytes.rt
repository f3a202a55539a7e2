//! `GhostBytes`: bytes that only contracts see.

ghost use Rattle.std.specs.Prelude.{◌≡◌, ◌++◌, [], ℕ, List};
ghost use Rattle.std.specs.Borrow.{ftrue};

use std::marker::{Model, PhantomData};

/// The bytes that came so far. A clause reads them as `value`. They take no memory, and the methods do nothing at run time.
#[derive(Drop)]
pub struct GhostBytes {
    of: PhantomData<()>,
    pub ghost value: { List ℕ },
}

impl Model for GhostBytes {
    ghost also_owns = { λ _. ftrue };
}

impl GhostBytes {
    /// No byte yet.
    pub fn new() -> GhostBytes
        ensures { result.value ≡ [] }
    {
        GhostBytes::of(&(), &())
    }

    /// These bytes, then more.
    pub fn more(&self, bytes: &[u8]) -> GhostBytes
        ensures { result.value ≡ self.now.value ++ bytes.now }
    {
        GhostBytes::of(self, &bytes)
    }

    /// The bytes that the caller's proof makes of two values.
    fn of<A, B>(before: &A, more: &B) -> GhostBytes
        ghost value: { List ℕ }
        ensures { result.value ≡ value }
    {
        GhostBytes { of: PhantomData }
    }
}
