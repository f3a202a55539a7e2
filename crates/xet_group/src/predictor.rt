//! Histograms of set bits, one for each of the four groups.

ghost use Rattle.std.specs.Prelude.{◌≡◌, ◌%◌};
ghost use Rattle.xet_group.specs.Histogram.{CountsFit, table, with_counted};

use crate::lanes::count_blocks;
use std::marker::Model;

/// Counts of bytes. `[g][k]` is the number of bytes so far that are in group g and have k set bits, in a
/// table of 4 rows of 9. The group of a byte is its index modulo 4. No call allocates.
#[derive(Debug, Drop)]
pub struct BG4Predictor {
    counts: [[u32; 9]; 4],
}

impl Model for BG4Predictor {
    ghost use Rattle.std.specs.Prelude.{List, ℕ};
    ghost use Rattle.xet_group.specs.Histogram.{IsTable};

    ghost Value = { List (List ℕ) };

    ghost view = { λ p. p.counts };

    ghost invariant = { λ p. IsTable p.counts };
}

impl Default for BG4Predictor {
    ghost is_default = { λ p. p ≡ table (λ _ _. 0) };

    /// All counts are 0.
    fn default() -> BG4Predictor {
        BG4Predictor {
            counts: [[0; 9]; 4],
        }
    }
}

impl BG4Predictor {
    /// Counts these bytes. The first has the index `offset`, which may be any number. No count may exceed
    /// 2^32 - 1 afterwards.
    pub fn add_data_reference(&mut self, offset: usize, b: &[u8])
        requires { CountsFit self.old (offset % 4) b.now }
        ensures { self.new ≡ with_counted self.old (offset % 4) b.now }
    {
        let start = offset % 4;
        for (i, byte) in b.iter().enumerate() {
            self.counts[(start + i) % 4][byte.count_ones() as usize] += 1;
        }
    }

    /// Same contract as `add_data_reference`, which it calls. Variants are meant to differ only in how they
    /// count.
    pub fn add_data_v1(&mut self, offset: usize, b: &[u8])
        requires { CountsFit self.old (offset % 4) b.now }
        ensures { self.new ≡ with_counted self.old (offset % 4) b.now }
    {
        self.add_data_reference(offset, b);
    }

    /// Same contract as `add_data_reference`. Counts 16 bytes at a time, and then byte by byte.
    pub fn add_data_swar(&mut self, offset: usize, b: &[u8])
        requires { CountsFit self.old (offset % 4) b.now }
        ensures { self.new ≡ with_counted self.old (offset % 4) b.now }
    {
        let done = 16 * (b.len() / 16);
        count_blocks(&mut self.counts, offset % 4, b);
        self.add_data_reference(offset, &b[done..]);
    }

    /// Same contract as `add_data_swar`, which it calls.
    pub fn add_data(&mut self, offset: usize, b: &[u8])
        requires { CountsFit self.old (offset % 4) b.now }
        ensures { self.new ≡ with_counted self.old (offset % 4) b.now }
    {
        self.add_data_swar(offset, b);
    }

    /// The counts, as `[group][number of set bits]`.
    pub fn histograms(&self) -> [[u32; 9]; 4]
        ensures { result ≡ self.now }
    {
        self.counts
    }
}
