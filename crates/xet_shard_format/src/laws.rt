//! Theorems about the format. Each is the contract of a function without parameters and without effect.

ghost use Rattle.std.specs.Prelude.{◌≡◌, [], ◌∷◌, ◌<◌, ℕ, List, None, Ok, Option, length, nat_le, nat_lt};
ghost use Rattle.std.specs.List.{All};
ghost use Rattle.xet_shard_format.specs.Lookups.{Lookups};
ghost use Rattle.xet_shard_format.specs.Encoding.{Fits, IsShard, Shard, shard_bytes};
ghost use Rattle.xet_shard_format.specs.Reading.{IsRead, ShardParts, all_of, shard_parts_of};

/// The encoding of a well-formed shard, with whichever lookup tables, is read as that shard.
pub fn written_is_read()
    ensures { (w : Lookups) (s : Shard) → IsShard s → Fits s → all_of (shard_bytes w s) ≡ Ok (shard_parts_of w s) }
{}

/// The bytes of a well-formed shard determine its xorbs, files, key, creation time and expiry.
pub fn bytes_determine_shard()
    ensures { (w v : Lookups) (s t : Shard) → IsShard s → Fits s → IsShard t → Fits t → shard_bytes w s ≡ shard_bytes v t → s ≡ t }
{}

/// What is read of bytes is a well-formed shard, and the bytes are its encoding.
pub fn what_is_read_is_a_shard()
    ensures { (bytes : List ℕ) (p : ShardParts) → All (λ b. b < 256) bytes → all_of bytes ≡ Ok p → IsRead bytes p }
{}
