//! A row of a section: a hash and four numbers, 48 bytes.

ghost use Rattle.std.specs.Prelude.{◌≡◌, ◌≤◌, ◌+◌, length, take, drop};
ghost use Rattle.xet_codec.specs.Numbers.{half_word};
ghost use Rattle.xet_shard_format.specs.Rows.{row, row_of};

use xet_codec::{half_word, hash_at};
use xet_hash::DataHash;

/// A row: a hash and four numbers. Their meaning depends on the kind of row.
#[derive(Clone, Copy, PartialEq, Eq, Debug)]
pub struct Row {
    /// The hash.
    pub hash: DataHash,
    /// The number at offset 32.
    pub a: u32,
    /// The number at offset 36.
    pub b: u32,
    /// The number at offset 40.
    pub c: u32,
    /// The number at offset 44.
    pub d: u32,
}

impl Row {
    /// The row with this hash and these numbers.
    pub fn new(hash: DataHash, a: u32, b: u32, c: u32, d: u32) -> Row
        ensures { result ≡ row hash a b c d }
    {
        Row { hash, a, b, c, d }
    }

    /// The row with this hash, whose numbers are 0.
    pub fn of_hash(hash: DataHash) -> Row
        ensures { result ≡ row hash 0 0 0 0 }
    {
        Row::new(hash, 0, 0, 0, 0)
    }
}

/// Decodes the row in the first 48 bytes.
#[tactic(auto, unfolding(crate::specs::Rows::row_of))]
pub fn row_of(bytes: &[u8]) -> Row
    requires { 48 ≤ length bytes.now }
    ensures { result ≡ row_of bytes.now }
{
    Row {
        hash: hash_at(bytes, 0),
        a: half_word(bytes, 32),
        b: half_word(bytes, 36),
        c: half_word(bytes, 40),
        d: half_word(bytes, 44),
    }
}
