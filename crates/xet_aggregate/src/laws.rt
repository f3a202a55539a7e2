//! Theorems about the definitions. Each is the contract of a function that does nothing.

ghost use Rattle.std.specs.Prelude.{◌≡◌, ◌≢◌, ◌++◌, ℕ, false, IsTrue, List, map};
ghost use Rattle.std.specs.List.{AllByRecursion};
ghost use Rattle.xet_hash.specs.Hash.{sentinel};
ghost use Rattle.xet_shard_format.specs.declared.record.MDBFileInfo.{MDBFileInfo};
ghost use Rattle.xet_xorb_chunk.specs.Chunks.{bytes_of_chunk};
ghost use Rattle.xet_xorb.specs.Raw.{ArePartsOfXorb};
ghost use Rattle.xet_cut.specs.declared.limits.LimitSettings.{LimitSettings};
ghost use Rattle.xet_cut.specs.Limits.{AreInRange};
ghost use Rattle.xet_aggregate.specs.Aggregate.{Aggregate, IsAggregate, KeepsSizes, empty, filled, fits, is_open, merged, shifted};

/// Merging is associative, and merging with no chunks and no files changes nothing.
pub fn merging_is_associative()
    ensures associative { (a b c : Aggregate) → merged (merged a b) c ≡ merged a (merged b c) }
    ensures empty_first { (a : Aggregate) → merged empty a ≡ a }
    ensures empty_last { (a : Aggregate) → merged a empty ≡ a }
{}

/// Two aggregates give one when they are merged, if their chunks can be one xorb: if they fit limits that are in their
/// ranges, for instance.
pub fn merged_is_aggregate()
    ensures parts { (a b : Aggregate) → IsAggregate a → IsAggregate b → ArePartsOfXorb (map bytes_of_chunk (a.chunks ++ b.chunks)) → IsAggregate (merged a b) }
    ensures fits { (s : LimitSettings) (a b : Aggregate) → AreInRange s → IsTrue (fits s a b) → IsAggregate a → IsAggregate b → IsAggregate (merged a b) }
    ensures empty { IsAggregate empty }
{}

/// Shifting and filling change only where the chunks of open segments begin, and the xorb hashes of these segments.
/// Shifting keeps which segments are open, and filling with another hash than the sentinel leaves none open.
pub fn records_keep_their_sizes()
    ensures shifted { (n : ℕ) (file : MDBFileInfo) → KeepsSizes file (shifted n file) }
    ensures opens { (n : ℕ) (file : MDBFileInfo) → map is_open (shifted n file).segments ≡ map is_open file.segments }
    ensures filled { (hash : List ℕ) (file : MDBFileInfo) → KeepsSizes file (filled hash file) }
    ensures closed { (hash : List ℕ) (file : MDBFileInfo) → hash ≢ sentinel → AllByRecursion (λ s. is_open s ≡ false) (filled hash file).segments }
{}
