//! `DefragPrevention`.

ghost use Rattle.std.specs.Prelude.{◌≡◌, ◌+◌, ◌-◌, ◌*◌, ◌<◌, ◌≤◌, ◌^◌, [], ◌∷◌, ◌++◌, drop, length, if◌then◌else◌, IfOk, IsOkUnless, true};
ghost use Rattle.std.specs.List.{sum_by};
ghost use Rattle.std.specs.VecDeque.{deque_capacity};
ghost use Rattle.xet_fragmentation.specs.Fragmentation.{Fragmentation, asked, chunks_in, grown, is_allowed, is_fragmented, is_full, is_short, with_longer_range, with_range};

use std::alloc::Global;
use std::collections::VecDeque;
use std::marker::Model;
use xet_cut::Limits;
use xet_hash::StoreError;

/// The guard against fragmentation: it keeps the lengths of the last ranges of a file's plan, and says whether a run of
/// chunks that are stored already may be used. Contracts see a `Fragmentation`. Only `new` takes memory.
#[derive(Drop)]
pub struct DefragPrevention {
    /// The maximum number of ranges.
    window: u32,
    /// The high threshold of the mean range, as numerator and denominator.
    min_range: (u32, u32),
    /// The low threshold divided by the high one, as numerator and denominator.
    low_factor: (u32, u32),
    /// The lengths of the last ranges in chunks, the oldest first, with capacity for the window.
    ranges: VecDeque<u64>,
    /// The sum of `ranges`.
    chunks: u64,
    /// Whether the low threshold counts.
    low: bool,
}

impl Model for DefragPrevention {
    ghost use Rattle.std.specs.Prelude.{◌≡◌, ◌≤◌, length};
    ghost use Rattle.std.specs.List.{sum_by};
    ghost use Rattle.std.specs.VecDeque.{deque_capacity};
    ghost use Rattle.xet_fragmentation.specs.Fragmentation.{Fragmentation};

    ghost Value = { Fragmentation };

    ghost view = { λ d. record { window = d.window; min_range = d.min_range; low_factor = d.low_factor; ranges = d.ranges.items; low = d.low } };

    ghost invariant = { λ d. (1 ≤ d.window) × (length d.ranges.items ≤ d.window) × (d.window ≤ deque_capacity d.ranges) × (d.chunks ≡ sum_by (λ n. n) d.ranges.items) };
}

impl DefragPrevention {
    /// A guard with the window and the thresholds of these limits. There is no range yet, and the low threshold
    /// counts. The only error is `StoreError::OutOfMemory`.
    pub fn new(alloc: Global, limits: &Limits) -> Result<DefragPrevention, StoreError>
        ensures new { IfOk result (λ guard. guard ≡ record { window = limits.now.guard_window; min_range = limits.now.min_range; low_factor = limits.now.low_factor; ranges = []; low = true }) }
        ensures memory { IsOkUnless result StoreError.OutOfMemory }
    {
        let window = limits.guard_window();
        let ranges = VecDeque::with_capacity(alloc, window as usize)?;
        Ok(DefragPrevention {
            window,
            min_range: limits.min_range(),
            low_factor: limits.low_factor(),
            ranges,
            chunks: 0,
            low: true,
        })
    }

    /// The last range has `n` more chunks; nothing changes if there is none. The caller ensures that the sum of the
    /// ranges stays below 2^40.
    pub fn increment_last_range_in_fragmentation_estimate(&mut self, n: u64)
        requires { chunks_in (with_longer_range self.old n) < 2 ^ 40 }
        ensures { self.new ≡ with_longer_range self.old n }
    {
        if grow_last(&mut self.ranges, n) {
            self.chunks += n;
        }
    }

    /// There is one more range of `n` chunks; the oldest is dropped if there are more than the window. The caller
    /// ensures that the sum of the ranges stays below 2^40.
    pub fn add_range_to_fragmentation_estimate(&mut self, n: u64)
        requires { chunks_in (with_range self.old n) < 2 ^ 40 }
        ensures { self.new ≡ with_range self.old n }
    {
        let dropped = push_range(&mut self.ranges, self.window as usize, n);
        self.chunks = self.chunks - dropped + n;
    }

    /// Whether a run of `n` chunks may be used.
    #[tactic(auto, unfolding(crate::specs::Fragmentation::is_allowed, crate::specs::Fragmentation::asked))]
    pub fn allow_dedup_on_next_range(&mut self, n: u64) -> bool
        ensures allowed { result ≡ is_allowed self.old n }
        ensures asked { self.new ≡ asked self.old n }
    {
        if !self.is_full() {
            return true;
        }
        if !self.is_fragmented() {
            self.low = true;
            return true;
        }
        if self.is_short(n) {
            self.low = false;
            return false;
        }
        true
    }

    /// Whether there are as many ranges as the window.
    fn is_full(&self) -> bool
        ensures { result ≡ is_full self.now }
    {
        self.ranges.len() >= self.window as usize
    }

    /// Whether the mean range is below the threshold.
    fn is_fragmented(&self) -> bool
        ensures { result ≡ is_fragmented self.now }
    {
        let (numerator, denominator) = if self.low { self.low_factor } else { (1, 1) };
        product(self.chunks, self.min_range.1, denominator)
            < product(u64::from(self.window), self.min_range.0, numerator)
    }

    /// Whether a run of `run` chunks is shorter than the mean range.
    fn is_short(&self, run: u64) -> bool
        ensures { result ≡ is_short self.now run }
    {
        u128::from(run) * u128::from(self.window) < u128::from(self.chunks)
    }
}

/// The product of these numbers.
fn product(number: u64, a: u32, b: u32) -> u128
    ensures { result ≡ number * (a * b) }
{
    u128::from(number) * (u128::from(a) * u128::from(b))
}

/// Adds `n` to the last range, and returns whether there is one.
fn grow_last(ranges: &mut VecDeque<u64>, n: u64) -> bool
    requires { sum_by (λ n. n) (grown n ranges.old.items) < 2 ^ 40 }
    ensures items { ranges.new.items ≡ grown n ranges.old.items }
    ensures length { length ranges.new.items ≡ length ranges.old.items }
    ensures capacity { deque_capacity ranges.new ≡ deque_capacity ranges.old }
    ensures sum { sum_by (λ n. n) ranges.new.items ≡ sum_by (λ n. n) ranges.old.items + (if result then n else 0) }
{
    match ranges.back_mut() {
        Some(last) => {
            *last += n;
            true
        }
        None => false,
    }
}

/// Adds a range of `n` chunks, and returns the length of the oldest if it is dropped for it, otherwise 0.
fn push_range(ranges: &mut VecDeque<u64>, window: usize, n: u64) -> u64
    requires window { 1 ≤ window }
    requires room { window ≤ deque_capacity ranges.old }
    requires few { length ranges.old.items ≤ window }
    ensures items { ranges.new.items ≡ drop (length ranges.old.items + 1 - window) (ranges.old.items ++ n ∷ []) }
    ensures few { length ranges.new.items ≤ window }
    ensures capacity { deque_capacity ranges.new ≡ deque_capacity ranges.old }
    ensures sum { sum_by (λ n. n) ranges.new.items + result ≡ sum_by (λ n. n) ranges.old.items + n }
    ensures dropped { result ≤ sum_by (λ n. n) ranges.old.items }
{
    let dropped = drop_oldest(ranges, window);
    ranges.push_back_reserved(n);
    dropped
}

/// Drops the oldest range if there are as many as the window, and returns its length, otherwise 0.
fn drop_oldest(ranges: &mut VecDeque<u64>, window: usize) -> u64
    requires window { 1 ≤ window }
    requires few { length ranges.old.items ≤ window }
    ensures items { ranges.new.items ≡ drop (length ranges.old.items + 1 - window) ranges.old.items }
    ensures few { length ranges.new.items < window }
    ensures capacity { deque_capacity ranges.new ≡ deque_capacity ranges.old }
    ensures sum { sum_by (λ n. n) ranges.new.items + result ≡ sum_by (λ n. n) ranges.old.items }
{
    if ranges.len() < window {
        return 0;
    }
    ranges.pop_front().unwrap_or(0)
}
