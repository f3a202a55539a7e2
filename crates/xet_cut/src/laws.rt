//! Theorems about the definitions. Each is the contract of a function without parameters and without effect.

ghost use Rattle.std.specs.Prelude.{◌≡◌, ◌<◌, ◌≤◌, ◌++◌, ℕ, Bool, true, false, List, [], ◌∷◌, length, take, drop, Some, None};
ghost use Rattle.std.specs.List.{AllByRecursion, flat_map};
ghost use Rattle.std.specs.Option.{option_to_list};
ghost use Rattle.xet_hash.specs.Merkle.{chunk_hash};
ghost use Rattle.xet_xorb_chunk.specs.declared.chunk.Chunk.{Chunk};
ghost use Rattle.xet_cut.specs.declared.limits.LimitSettings.{LimitSettings};
ghost use Rattle.xet_cut.specs.Chunking.{chunking};
ghost use Rattle.xet_cut.specs.Partitions.{complete_chunks};
ghost use Rattle.xet_cut.specs.Streams.{AreSplit, IsBlock, IsSplit, boundary_in, if_any, step};

/// The first boundary within bytes is where their first chunk ends, whatever follows. Bytes with no boundary within them
/// are one chunk, if there are any.
pub fn boundaries_end_chunks()
    ensures first { (s : LimitSettings) (bs rest : List ℕ) (k : ℕ) → 1 ≤ s.minimum_chunk → s.minimum_chunk < s.maximum_chunk → boundary_in s bs ≡ Some k
        → chunking s (bs ++ rest) ≡ take k bs ∷ chunking s (drop k bs ++ rest) }
    ensures none { (s : LimitSettings) (bs : List ℕ) → boundary_in s bs ≡ None → chunking s bs ≡ option_to_list (if_any bs) }
{}

/// A step of `Chunker::next` splits the buffered bytes and the new ones that it takes into the chunk that it returns, if
/// it returns one, and the bytes that it buffers. With the last bytes, the chunk that it returns and those of the bytes
/// that it has not taken are the chunks of the whole. Before that, a step that returns a chunk takes at least one new byte.
pub fn steps_split()
    ensures within { (s : LimitSettings) (buffered new : List ℕ) (last : Bool) → s.minimum_chunk < s.maximum_chunk → (step s buffered new last).taken ≤ length new }
    ensures more { (s : LimitSettings) (buffered new : List ℕ) → 1 ≤ s.minimum_chunk → s.minimum_chunk < s.maximum_chunk → boundary_in s buffered ≡ None
        → IsSplit s (buffered ++ take (step s buffered new false).taken new) (option_to_list (step s buffered new false).chunk) (step s buffered new false).buffered }
    ensures last { (s : LimitSettings) (buffered new : List ℕ) → 1 ≤ s.minimum_chunk → s.minimum_chunk < s.maximum_chunk → boundary_in s buffered ≡ None
        → option_to_list (step s buffered new true).chunk ++ chunking s (drop (step s buffered new true).taken new) ≡ chunking s (buffered ++ new) }
    ensures progress { (s : LimitSettings) (buffered new : List ℕ) → s.minimum_chunk < s.maximum_chunk → boundary_in s buffered ≡ None
        → (chunk : List ℕ) → (step s buffered new false).chunk ≡ Some chunk → 0 < (step s buffered new false).taken }
{}

/// Bytes can be split in one way only: into their complete chunks and the bytes after them.
pub fn splits_are_unique()
    ensures { (s : LimitSettings) (bs : List ℕ) (chunks more : List (List ℕ)) (left rest : List ℕ) → 1 ≤ s.minimum_chunk → s.minimum_chunk < s.maximum_chunk
        → IsSplit s bs chunks left → IsSplit s bs more rest → (chunks ≡ more) × (left ≡ rest) }
{}

/// However a stream is divided into pieces, the chunks of all pieces are the chunks of the whole: with those of the last
/// bytes, or with the chunk of what is buffered at the end, if anything.
pub fn chunks_of_all_pieces()
    ensures followed { (s : LimitSettings) (given : List (List ℕ × List (List ℕ))) (left : List ℕ) → AreSplit s [] given left
        → (last : List ℕ) → flat_map (λ p. p.1) given ++ chunking s (left ++ last) ≡ chunking s (flat_map (λ p. p.0) given ++ last) }
    ensures finished { (s : LimitSettings) (given : List (List ℕ × List (List ℕ))) (left : List ℕ) → AreSplit s [] given left
        → flat_map (λ p. p.1) given ++ option_to_list (if_any left) ≡ chunking s (flat_map (λ p. p.0) given) }
{}

/// The complete chunks of bytes are those into which `IsSplit` divides them, so those of `Chunker::next_block` for bytes
/// that are not the last.
pub fn complete_chunks_are_split_off()
    ensures { (s : LimitSettings) (bs : List ℕ) (chunks : List (List ℕ)) (left : List ℕ) → 1 ≤ s.minimum_chunk → s.minimum_chunk < s.maximum_chunk
        → IsSplit s bs chunks left → complete_chunks s bs ≡ chunks }
{}

/// The chunks of a block are not empty, have at most the maximum length, and have the digests of their bytes.
pub fn blocks_have_chunks()
    ensures { (s : LimitSettings) (bs : List ℕ) (last : Bool) (chunks : List Chunk) (buffered : List ℕ) → 1 ≤ s.minimum_chunk → s.minimum_chunk < s.maximum_chunk
        → IsBlock s bs last chunks buffered
        → AllByRecursion (λ c. (c.hash ≡ chunk_hash c.bytes) × (0 < length c.bytes) × (length c.bytes ≤ s.maximum_chunk)) chunks }
{}
