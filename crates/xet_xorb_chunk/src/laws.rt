//! Theorems about the definitions. Each is the contract of a function without parameters and without effect.

ghost use Rattle.std.specs.Prelude.{◌≡◌, ◌↔◌, ◌*◌, ◌<◌, ◌≤◌, ◌^◌, ℕ, List, Ok, codes, slice_index, take, true};
ghost use Rattle.xet_xorb_chunk.specs.Header.{Header, header_at, header_bytes, is_scheme};
ghost use Rattle.xet_xorb_chunk.specs.EncodedChunks.{AreEncoded};
ghost use Rattle.xet_xorb_chunk.specs.Stream.{IsStream};

/// A header that passes the checks is parsed back from its encoding.
pub fn header_is_read_back()
    ensures { (max_chunk : ℕ) (h : Header) → max_chunk < 2 ^ 23 → is_scheme h.scheme ≡ true → h.version ≡ 0 → h.stored ≤ 2 * max_chunk → h.plain ≤ max_chunk
        → header_at max_chunk (header_bytes h) ≡ Ok h }
{}

/// No valid chunk header begins with the magic of a footer. So a reader can tell where the chunks of a xorb
/// end.
pub fn no_header_is_a_footer()
    ensures { (max_chunk : ℕ) (bytes : List ℕ) (h : Header) → header_at max_chunk bytes ≡ Ok h → take 7 bytes ≡ codes "XETBLOB" → ⊥ }
{}

/// Bytes are a whole stream of chunks if and only if they are the encodings of these chunks, concatenated.
pub fn stream_is_its_chunks()
    ensures { (max_chunk : ℕ) (bytes : List ℕ) (chunks : List (List ℕ)) → max_chunk < 2 ^ 23 → ((i : ℕ) → slice_index bytes i < 256)
        → (IsStream max_chunk bytes chunks (Ok tt) ↔ AreEncoded max_chunk bytes chunks) }
{}
