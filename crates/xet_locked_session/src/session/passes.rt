//! What a pass knows of itself.

ghost use Rattle.std.specs.Prelude.{◌≡◌, length, map};
ghost use Rattle.xet_store.specs.Holders.{seen};
ghost use Rattle.xet_locked_session.specs.Passes.{IsPassOf, IsSeen};

use super::Pass;
use crate::naming::Naming;

impl<J: Naming> Pass<J> {
    /// Its number, which its entries have.
    pub fn number(&self) -> u32
        ensures { result ≡ self.now.number }
    {
        self.number
    }

    /// The length of the history that it has seen.
    pub fn seen(&self) -> u64
        ensures { result ≡ length (seen self.now) }
    {
        self.known.seen
    }

    /// The numbers of its own entries, in ascending order. The number of an entry is its index in the history.
    pub fn own(&self) -> &[u64]
        ensures { result.now ≡ map (λ p. p.0) self.now.own }
    {
        &self.known.own
    }

    /// Proof aid without effect: makes available to the caller of which session it is, that what it has seen is legal, and that
    /// its own entries are there.
    pub fn recall_invariant(&self)
        ensures of { IsPassOf J.store self.now }
        ensures seen { IsSeen self.now }
    {
        let _ = &self.number;
    }
}
