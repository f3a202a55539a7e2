//! Bisection of a lookup table behind a reader: each step reads one item, and nothing is allocated.

ghost use Rattle.std.specs.Prelude.{◌≡◌, ◌≤◌, ◌<◌, ◌+◌, ◌*◌, ◌^◌, true, drop, length, IfErr, IfOk, IsErrOf};
ghost use Rattle.xet_shard.specs.Bisection.{AnswersAt, Bisects, in_table, passes};
ghost use Rattle.xet_shard.specs.internal.Bisection.{slots};
ghost use Rattle.xet_shard_format.specs.Reading.{IsShardError};
ghost use Rattle.xet_io.specs.Frame.{ReadFrom};

use crate::reader::byte_ranges::{fill, within};
use xet_codec::{half_word, reader_length, word};
use xet_hash::{Place, StoreError};
use xet_io::ReadAt;

/// A test of a lookup item by its first 12 bytes: a word and a row.
#[derive(Clone, Copy, PartialEq, Eq, Debug)]
pub enum Probe {
    /// The word is below this number.
    WordBelow(u64),
    /// The word is at most this number.
    WordAtMost(u64),
    /// The row is below this number.
    RowBelow(u32),
}

impl Probe {
    /// Whether an item passes the test.
    #[tactic(auto, unfolding(crate::specs::Bisection::passes))]
    fn passes(&self, item: &[u8]) -> bool
        requires { 12 ≤ length item.now }
        ensures { result ≡ passes self.now item.now }
    {
        match *self {
            Probe::WordBelow(bound) => word(item, 0) < bound,
            Probe::WordAtMost(bound) => word(item, 0) <= bound,
            Probe::RowBelow(bound) => half_word(item, 8) < bound,
        }
    }
}

/// An index that bisects the table of `count` items of `size` bytes each, at offset `at`: the item before it
/// passes, and the item at it does not. The error is `UnexpectedEof` if the bytes end before the table does,
/// or `Io(Input)` if the reader failed.
pub fn bisecting_index<R: ReadAt>(
    reader: &mut R,
    at: u64,
    size: u64,
    count: u64,
    probe: Probe,
) -> Result<u64, StoreError>
    requires { 12 ≤ size }
    ensures exact { R.tells reader.old ≡ true → AnswersAt (passes probe) (slots size count (drop at (R.bytes reader.old))) (λ index. index) result (λ index. in_table at (size * count) (R.bytes reader.old) index) }
    ensures within { IfOk result (λ index. index ≤ count) }
    ensures inside { IfOk result (λ index. at + size * count < 2 ^ 64) }
    ensures errors { IfErr result IsShardError }
    ensures frame { ReadFrom R.bytes R.tells R.faults R.lent reader.old reader.new (IsErrOf result (StoreError.Io Place.Input)) }
{
    let end = reader_length(reader)?;
    match within(at, size, count, end) {
        Some(_) => bisect(reader, at, size, count, probe),
        None => Err(StoreError::UnexpectedEof),
    }
}

/// The steps of the bisection. The contract says what is found if the reader has the table.
fn bisect<R: ReadAt>(
    reader: &mut R,
    at: u64,
    size: u64,
    count: u64,
    probe: Probe,
) -> Result<u64, StoreError>
    requires item { 12 ≤ size }
    requires inside { at + size * count < 2 ^ 64 }
    ensures found { R.tells reader.old ≡ true → at + size * count ≤ length (R.bytes reader.old) → IfOk result (λ index. Bisects (passes probe) (slots size count (drop at (R.bytes reader.old))) index) }
    ensures fault { R.tells reader.old ≡ true → at + size * count ≤ length (R.bytes reader.old) → IfErr result (λ e. e ≡ StoreError.Io Place.Input) }
    ensures within { IfOk result (λ index. index ≤ count) }
    ensures errors { IfErr result IsShardError }
    ensures frame { ReadFrom R.bytes R.tells R.faults R.lent reader.old reader.new (IsErrOf result (StoreError.Io Place.Input)) }
{
    let mut low = 0;
    let mut high = count;
    'halves: while low < high {
        let middle = low + (high - low) / 2;
        if passes_at(reader, at + size * middle, probe)? {
            low = middle + 1;
        } else {
            high = middle;
        }
    }
    Ok(low)
}

/// Reads the item at offset `at`, and tests it. The contract says the result if the reader has the item.
fn passes_at<R: ReadAt>(reader: &mut R, at: u64, probe: Probe) -> Result<bool, StoreError>
    requires { at + 12 < 2 ^ 64 }
    ensures told { R.tells reader.old ≡ true → at + 12 ≤ length (R.bytes reader.old) → IfOk result (λ passed. passed ≡ passes probe (drop at (R.bytes reader.old))) }
    ensures fault { R.tells reader.old ≡ true → at + 12 ≤ length (R.bytes reader.old) → IfErr result (λ e. e ≡ StoreError.Io Place.Input) }
    ensures errors { IfErr result IsShardError }
    ensures frame { ReadFrom R.bytes R.tells R.faults R.lent reader.old reader.new (IsErrOf result (StoreError.Io Place.Input)) }
{
    let mut item = [0; 12];
    fill(reader, at, &mut item)?;
    Ok(probe.passes(&item))
}
