//! Theorems about the definitions. Each is the contract of a function that does nothing.

ghost use Rattle.std.specs.Prelude.{◌≡◌, ◌<◌, ◌^◌, ◌++◌, ℕ, List, length};
ghost use Rattle.std.specs.List.{AllByRecursion};
ghost use Rattle.xet_shard_format.specs.declared.record.MDBFileInfo.{MDBFileInfo};
ghost use Rattle.xet_shard_format.specs.Records.{file_record_hash};
ghost use Rattle.xet_folder.specs.Contents.{IsRecord};
ghost use Rattle.xet_folder.specs.Xorbs.{IsListed, Xorbs};
ghost use Rattle.xet_completion.specs.Completing.{Completes};

/// A file with fewer than 2^32 segments, of fewer than 2^32 bytes each, that may be recorded over xorbs has a record over
/// them. It may be recorded over each table that lists these xorbs with the same chunks, and so once xorbs are appended.
pub fn recorded_files_complete()
    ensures recorded { (xorbs : Xorbs) (f : MDBFileInfo) → length f.segments < 2 ^ 32 → AllByRecursion (λ s. s.unpacked_segment_bytes < 2 ^ 32) f.segments → Completes xorbs f → IsRecord xorbs (file_record_hash f, f) }
    ensures listed { (xorbs later : Xorbs) (f : MDBFileInfo) → ((h : List ℕ) (leaves : List (List ℕ × ℕ)) → IsListed xorbs h leaves → IsListed later h leaves) → Completes xorbs f → Completes later f }
    ensures appended { (xorbs added : Xorbs) (f : MDBFileInfo) → Completes xorbs f → Completes (xorbs ++ added) f }
{}
