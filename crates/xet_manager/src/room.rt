//! Memory that is taken ahead.

ghost use Rattle.std.specs.Prelude.{◌≡◌, None};
ghost use Rattle.xet_shard.specs.Held.{nothing};

use std::alloc::Global;
use std::mem;
use xet_shard::MDBInMemoryShard;
use xet_shard_flush::DueShard;

/// The memory that a manager took ahead: for a flush of what is pending, and for a record that is added after it or
/// without it.
#[derive(Drop)]
pub(crate) struct Room {
    /// The shard of what is pending, if the memory for its flush was taken.
    pub due: Option<DueShard>,
    /// What is pending after the next flush: a shard without records.
    pub next: MDBInMemoryShard,
    /// The length in bytes of the longest record for which there is memory: in what is pending, and, if something is
    /// pending, in `next`.
    pub bytes: u64,
}

impl Room {
    /// No memory is taken.
    pub(crate) fn new(alloc: Global) -> Room
        ensures due { result.due ≡ None }
        ensures next { result.next ≡ nothing }
        ensures bytes { result.bytes ≡ 0 }
    {
        Room {
            due: None,
            next: MDBInMemoryShard::new(alloc),
            bytes: 0,
        }
    }

    /// Gives up the shard that is due, and the memory for a record.
    pub(crate) fn clear(&mut self)
        ensures due { self.new.due ≡ None }
        ensures next { self.new.next ≡ self.old.next }
        ensures bytes { self.new.bytes ≡ 0 }
    {
        self.due = None;
        self.bytes = 0;
    }

    /// The shard that is pending after the next flush. One that has no memory takes its place.
    pub(crate) fn take_next(&mut self, alloc: Global) -> MDBInMemoryShard
        ensures value { result ≡ self.old.next }
        ensures due { self.new.due ≡ self.old.due }
        ensures next { self.new.next ≡ nothing }
        ensures bytes { self.new.bytes ≡ self.old.bytes }
    {
        mem::replace(&mut self.next, MDBInMemoryShard::new(alloc))
    }
}
