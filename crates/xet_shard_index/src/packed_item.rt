//! A word and its place, in 20 bytes.

ghost use Rattle.std.specs.Prelude.{◌≡◌};

use crate::word_place::WordPlace;
use std::marker::Model;
use std::mem::size_of;

/// A word and its place. Contracts see the pair. It takes 20 bytes; a pair of the two takes 24.
#[derive(Clone, Copy)]
pub struct PackedItem {
    /// The word's upper 32 bits.
    high: u32,
    /// Its lower 32 bits.
    low: u32,
    shard: u32,
    row: u32,
    chunk: u16,
}

const _: () = prove!(size_of::<PackedItem>() == 20);

impl Model for PackedItem {
    ghost use Rattle.std.specs.Prelude.{ℕ, ◌+◌, ◌*◌, ◌/◌, ◌%◌, ◌<◌, ◌^◌, refl};
    ghost use Rattle.xet_shard_index.specs.declared.word_place.WordPlace.{WordPlace};
    ghost use Rattle.std.proofs.lemmas.Nat.{div-mul-add, mod-mul-add};

    ghost Value = { ℕ × WordPlace };

    ghost view = { λ i. (i.high * 2 ^ 32 + i.low, record { shard = i.shard; row = i.row; chunk = i.chunk }) };

    ghost invariant = { λ i. i.low < 2 ^ 32 };

    ghost inverse = { λ (w, p). record { high = w / 2 ^ 32; low = w % 2 ^ 32; shard = p.shard; row = p.row; chunk = p.chunk } };

    ghost inverse_ok = { λ i low. rw (div-mul-add i.high (2 ^ 32) i.low low, mod-mul-add i.high (2 ^ 32) i.low low) refl };
}

impl PackedItem {
    /// A word with its place.
    pub fn new(word: u64, place: WordPlace) -> PackedItem
        ensures { result ≡ (word, place) }
    {
        PackedItem {
            high: (word / 0x1_0000_0000) as u32,
            low: (word % 0x1_0000_0000) as u32,
            shard: place.shard,
            row: place.row,
            chunk: place.chunk,
        }
    }

    /// The word.
    pub fn word(&self) -> u64
        ensures { result ≡ self.now.0 }
    {
        u64::from(self.high) * 0x1_0000_0000 + u64::from(self.low)
    }

    /// Its place.
    pub fn place(&self) -> WordPlace
        ensures { result ≡ self.now.1 }
    {
        WordPlace {
            shard: self.shard,
            row: self.row,
            chunk: self.chunk,
        }
    }
}
