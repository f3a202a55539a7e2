//! Theorems about the definitions. Each is the contract of a function that does nothing.

ghost use Rattle.std.specs.Prelude.{◌≡◌, ◌+◌, ◌≤◌, ℕ};
ghost use Rattle.xet_fragmentation.specs.Fragmentation.{Fragmentation, asked, chunks_in, with_longer_range, with_range};

/// The number of chunks of the ranges increases by at most the chunks that are added. A query does not change it.
pub fn chunks_are_bounded()
    ensures range { (f : Fragmentation) (n : ℕ) → chunks_in (with_range f n) ≤ chunks_in f + n }
    ensures longer { (f : Fragmentation) (n : ℕ) → chunks_in (with_longer_range f n) ≤ chunks_in f + n }
    ensures asked { (f : Fragmentation) (run : ℕ) → chunks_in (asked f run) ≡ chunks_in f }
{}
