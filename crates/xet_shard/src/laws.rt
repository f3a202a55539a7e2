//! Theorems about shards. Each is the contract of a function without parameters and without effect.

ghost use Rattle.std.specs.Prelude.{◌≡◌, [], ◌∷◌, ◌<◌, ℕ, List, None, Ok, Option, Some, is_some, length, map, nat_le, nat_lt, true};
ghost use Rattle.std.specs.List.{AllByRecursion};
ghost use Rattle.xet_shard.specs.Bisection.{Bisects};
ghost use Rattle.xet_shard_format.specs.Lookups.{Lookups, chunk_items, xorb_items};
ghost use Rattle.xet_shard.specs.Sections.{blocks_in, chunk_lookup_in, files_in, info_at, xorb_lookup_in};
ghost use Rattle.xet_shard.specs.Held.{Held, held_shard, held_size};
ghost use Rattle.xet_shard.specs.Queries.{block_at, chunk_table, direct_run, file_in_shard, file_table, found_file, found_run, kept_hash, query_word, run_in, shard_run, shard_run_at, xorb_table};
ghost use Rattle.xet_shard.specs.Runs.{run_at};
ghost use Rattle.xet_shard_format.specs.Records.{first_word};
ghost use Rattle.xet_shard_format.specs.declared.record.MDBXorbInfo.{MDBXorbInfo};
ghost use Rattle.xet_shard_format.specs.Encoding.{Fits, IsShard, Shard, footer_of, full_shard_bytes, header, shard_bytes};

pub use xet_shard_format::laws::{bytes_determine_shard, what_is_read_is_a_shard, written_is_read};

/// The length that a shard in memory reports is that of its encoding.
pub fn size_is_length()
    ensures { (h : Held) (creation : ℕ) (expiry : Option ℕ) → Fits (held_shard h creation expiry) → length (full_shard_bytes (held_shard h creation expiry)) ≡ held_size h }
{}

/// On the encoding of a well-formed shard, under its own footer, each part that is read on its own is the
/// shard's, whichever lookup tables it has.
pub fn parts_are_read()
    ensures info { (w : Lookups) (s : Shard) → IsShard s → Fits s → info_at (shard_bytes w s) ≡ Ok (record { header = header; metadata = footer_of w s }) }
    ensures files { (w : Lookups) (s : Shard) → IsShard s → Fits s → files_in (footer_of w s) (shard_bytes w s) ≡ Ok s.files }
    ensures blocks { (w : Lookups) (s : Shard) → IsShard s → Fits s → blocks_in (footer_of w s) (shard_bytes w s) ≡ Ok s.blocks }
    ensures xorb_lookup { (w : Lookups) (s : Shard) → IsShard s → Fits s → xorb_lookup_in (footer_of w s) (shard_bytes w s) ≡ Ok (xorb_items s.blocks) }
    ensures chunk_lookup { (w : Lookups) (s : Shard) → IsShard s → Fits s → chunk_lookup_in (footer_of w s) (shard_bytes w s) ≡ Ok (chunk_items s.blocks) }
{}

/// On the encoding of a well-formed shard, under its own footer, a query returns the shard's own result,
/// whichever lookup tables it has. The result is the same at every index that bisects the table.
#[tactic(auto, using(crate::proofs::AskedAgain::file_again, crate::proofs::AskedAgain::run_again, crate::proofs::AskedAgain::direct_run_again, crate::proofs::AskedAgain::run_in_again))]
pub fn queries_are_answered()
    ensures file { (w : Lookups) (s : Shard) → IsShard s → Fits s → (h : List ℕ) (index : ℕ) → Bisects (λ i. nat_lt i.0 (first_word h)) (file_table (footer_of w s) (shard_bytes w s)) index → found_file (footer_of w s) h index (shard_bytes w s) ≡ file_in_shard s h }
    ensures run { (w : Lookups) (s : Shard) → IsShard s → Fits s → (query : List (List ℕ)) (index : ℕ) → Bisects (λ i. nat_le i.0 (query_word (footer_of w s) query)) (chunk_table (footer_of w s) (shard_bytes w s)) index → found_run (footer_of w s) query index (shard_bytes w s) ≡ Ok (shard_run s query) }
    ensures told { (w : Lookups) (s : Shard) → IsShard s → Fits s → (query : List (List ℕ)) (row place index : ℕ) → Bisects (λ i. nat_lt i.1 row) (xorb_table (footer_of w s) (shard_bytes w s)) index → direct_run (footer_of w s) query row place index (shard_bytes w s) ≡ Ok (elim query [ [] ↦ None | h ∷ hs ↦ shard_run_at s (h ∷ hs) row place ]) }
    ensures in_row { (w : Lookups) (s : Shard) → IsShard s → Fits s → (query : List (List ℕ)) (row place : ℕ) (block : MDBXorbInfo) → block_at row 0 s.blocks ≡ Some block → run_in (footer_of w s) query row place (shard_bytes w s) ≡ Ok (run_at (map (kept_hash s.key) query) block place) }
{}

/// Each item of a chunk lookup table leads to the row of a xorb's header.
#[tactic(auto, using(crate::proofs::AskedAgain::item_rows_are_heads))]
pub fn rows_of_items_are_heads()
    ensures { (blocks : List MDBXorbInfo) → AllByRecursion (λ i. is_some (block_at (i.1) 0 blocks) ≡ true) (chunk_items blocks) }
{}
