//! `Acts`: what was done with a store, for clauses.

ghost use Rattle.std.specs.Prelude.{◌≡◌, ◌++◌, ◌∷◌, [], List, option_map};
ghost use Rattle.std.specs.Borrow.{ftrue};
ghost use Rattle.xet_dedup_queries.specs.Acts.{Act};
ghost use Rattle.xet_dedup_queries.specs.Acts.Act.{Begun, Ended, Noted, Queried, Stored};

use crate::interface::FileXorbDependency;
use std::fmt;
use std::marker::{Model, PhantomData};
use xet_hash::MerkleHash;
use xet_shard_format::FileDataSequenceEntry;
use xet_xorb::RawXorbData;

/// The calls of a store that did not fail, in order, each with its arguments and its answer. A clause reads the list as
/// `items`. It takes no memory, and its methods do nothing at run time: a list in memory could not grow at a call that must
/// not fail.
#[derive(Drop)]
pub struct Acts {
    of: PhantomData<()>,
    pub ghost items: { List Act },
}

impl Model for Acts {
    ghost also_owns = { λ _. ftrue };
}

impl fmt::Debug for Acts {
    fn fmt<W: fmt::Write>(&self, f: &mut fmt::Formatter<W>) -> fmt::Result {
        f.write_str("Acts")
    }
}

impl Acts {
    /// No call yet.
    pub fn new() -> Acts
        ensures { result.items ≡ [] }
    {
        Acts::of(&(), &())
    }

    /// These calls, then a query.
    pub fn queried(
        &self,
        hashes: &[MerkleHash],
        reply: &Option<(usize, FileDataSequenceEntry, bool)>,
    ) -> Acts
        ensures { result.items ≡ self.now.items ++ Queried hashes.now (option_map (λ r. (r.1, r.2)) reply.now) ∷ [] }
    {
        Acts::of(self, &(hashes, reply))
    }

    /// These calls, then the beginning of a query elsewhere.
    pub fn begun(&self, hash: &MerkleHash) -> Acts
        ensures { result.items ≡ self.now.items ++ Begun hash.now ∷ [] }
    {
        Acts::of(self, hash)
    }

    /// These calls, then the end of the queries elsewhere.
    pub fn ended(&self, found: bool) -> Acts
        ensures { result.items ≡ self.now.items ++ Ended found ∷ [] }
    {
        Acts::of(self, &found)
    }

    /// These calls, then the storing of a xorb.
    pub fn stored(&self, xorb: &RawXorbData, next: &[(MerkleHash, u64)]) -> Acts
        ensures { result.items ≡ self.now.items ++ Stored xorb.now next.now ∷ [] }
    {
        Acts::of(self, &(xorb, next))
    }

    /// These calls, then the noting of dependencies.
    pub fn noted(&self, dependencies: &[FileXorbDependency]) -> Acts
        ensures { result.items ≡ self.now.items ++ Noted dependencies.now ∷ [] }
    {
        Acts::of(self, &dependencies)
    }

    /// The calls that the caller's proof makes of two values.
    fn of<A, B>(before: &A, call: &B) -> Acts
        ghost items: { List Act }
        ensures { result.items ≡ items }
    {
        Acts { of: PhantomData }
    }
}
