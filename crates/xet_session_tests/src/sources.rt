//! A source that waits until another was read to its end, and one that goes on until another has failed.

ghost use Rattle.std.specs.Prelude.{[], false};

use std::hint::spin_loop;
use std::sync::atomic::{AtomicBool, Ordering};
use xet_io::{Failed, Source};

/// How often a source looks whether the other one was read to its end, until it fails.
const TURNS: u32 = 1_000_000_000;

/// A source of the bytes of a slice. Either it waits before its second read until the other one was read to its end, or it tells
/// when it was.
#[derive(Drop)]
pub struct HeldSource<'a> {
    rest: &'a [u8],
    /// Whether the source that tells was read to its end.
    ended: &'a AtomicBool,
    waits: bool,
    reads: u64,
    faults: u64,
}

impl<'a> HeldSource<'a> {
    /// It waits for the other one before its second read.
    pub fn waiting(bytes: &'a [u8], ended: &'a AtomicBool) -> HeldSource<'a> {
        HeldSource {
            rest: bytes,
            ended,
            waits: true,
            reads: 0,
            faults: 0,
        }
    }

    /// It tells when it was read to its end.
    pub fn telling(bytes: &'a [u8], ended: &'a AtomicBool) -> HeldSource<'a> {
        HeldSource {
            rest: bytes,
            ended,
            waits: false,
            reads: 0,
            faults: 0,
        }
    }
}

impl Source for HeldSource<'_> {
    ghost tells = { λ _. false };

    ghost left = { λ _. [] };

    ghost faults = { λ s. s.faults };

    fn read(&mut self, buf: &mut [u8]) -> Result<usize, Failed> {
        if self.waits && self.reads == 1 && !has_ended(self.ended) {
            self.faults = self.faults.saturating_add(1);
            return Err(Failed);
        }
        self.reads = self.reads.saturating_add(1);
        let count = self.rest.len().min(buf.len());
        let (prefix, rest) = self.rest.split_at(count);
        buf[..count].copy_from_slice(prefix);
        self.rest = rest;
        if count == 0 && !self.waits {
            self.ended.store(true, Ordering::SeqCst);
        }
        Ok(count)
    }
}

/// Looks until the other source was read to its end, or for so many turns.
fn has_ended(ended: &AtomicBool) -> bool {
    for _ in 0..TURNS {
        if ended.load(Ordering::SeqCst) {
            return true;
        }
        spin_loop();
    }
    false
}

/// One of two sources: it fails at its first read and tells so, or it has bytes until the other one has failed, and so many more
/// reads of them after that.
#[derive(Drop)]
pub struct RestlessSource<'a> {
    failed: &'a AtomicBool,
    fails: bool,
    more: u64,
    faults: u64,
}

impl<'a> RestlessSource<'a> {
    /// It fails, and tells so.
    pub fn failing(failed: &'a AtomicBool) -> RestlessSource<'a> {
        RestlessSource {
            failed,
            fails: true,
            more: 0,
            faults: 0,
        }
    }

    /// It has bytes until the other one has failed, and then for so many reads.
    pub fn going(failed: &'a AtomicBool, more: u64) -> RestlessSource<'a> {
        RestlessSource {
            failed,
            fails: false,
            more,
            faults: 0,
        }
    }

    /// Whether it has no more bytes.
    pub fn has_ended(&self) -> bool {
        self.more == 0
    }
}

impl Source for RestlessSource<'_> {
    ghost tells = { λ _. false };

    ghost left = { λ _. [] };

    ghost faults = { λ s. s.faults };

    fn read(&mut self, buf: &mut [u8]) -> Result<usize, Failed> {
        if self.fails {
            self.faults = self.faults.saturating_add(1);
            self.failed.store(true, Ordering::SeqCst);
            return Err(Failed);
        }
        if self.failed.load(Ordering::SeqCst) {
            if self.more == 0 {
                return Ok(0);
            }
            self.more -= 1;
        }
        buf.fill(7);
        Ok(buf.len())
    }
}
