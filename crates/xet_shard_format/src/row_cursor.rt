//! A cursor over the rows of a section.

ghost use Rattle.std.specs.Prelude.{◌≡◌, ◌≤◌, ◌*◌, ◌==◌, length, nat_le};
ghost use Rattle.xet_shard_format.specs.Rows.{rows_in};
ghost use Rattle.xet_codec.specs.Parsing.{Gives};
ghost use Rattle.xet_shard_format.specs.Reading.{row_at};

use crate::row::{Row, row_of};
use std::marker::Model;
use xet_hash::{Reason, StoreError};

/// The rows that are left to read. Contracts see the list of these rows.
#[derive(Drop)]
pub struct Rows<'a> {
    rest: &'a [u8],
    left: u32,
}

impl<'a> Model for Rows<'a> {
    ghost use Rattle.std.specs.Prelude.{List, length, ◌*◌, ◌≤◌};
    ghost use Rattle.xet_shard_format.specs.declared.row.Row.{Row};
    ghost use Rattle.xet_shard_format.specs.Rows.{rows_in};

    ghost Value = { List Row };

    ghost view = { λ s. rows_in s.left s.rest.now };

    ghost invariant = { λ s. 48 * s.left ≤ length s.rest.now };
}

impl<'a> Rows<'a> {
    /// A cursor over the first `count` rows in the bytes.
    pub fn new(bytes: &'a [u8], count: u32) -> Rows<'a>
        requires { 48 * count ≤ length bytes.now }
        ensures { result ≡ rows_in count bytes.now }
    {
        Rows {
            rest: bytes,
            left: count,
        }
    }

    /// Reads the next row; `MalformedData(SectionPlace)` if none is left.
    pub fn next(&mut self) -> Result<Row, StoreError>
        ensures { Gives (λ r. (r, self.new)) result (row_at self.old) }
    {
        if self.left == 0 {
            return Err(StoreError::MalformedData(Reason::SectionPlace));
        }
        let row = row_of(self.rest);
        let (_, rest) = self.rest.split_at(48);
        self.rest = rest;
        self.left -= 1;
        Ok(row)
    }

    /// Whether at least `count` rows are left.
    pub fn has(&self, count: u64) -> bool
        ensures { result ≡ nat_le count (length self.now) }
    {
        count <= self.left as u64
    }

    /// Whether no row is left.
    pub fn is_done(&self) -> bool
        ensures { result ≡ (length self.now == 0) }
    {
        self.left == 0
    }
}
