//! Entries that are added to a history, each with its number among those of the holder that made it, and counted in a ledger.

ghost use Rattle.std.specs.Prelude.{◌≡◌, ◌≤◌, ◌<◌, ◌+◌, ◌^◌, ◌++◌, length, vec_capacity, vec_len};
ghost use Rattle.xet_shared_history.specs.Owned.{numbers_from};
ghost use Rattle.xet_shared_history.specs.Seen.{seen_by};

use crate::seats::{HistoryWord, Writer};
use std::sync::ledger::{Book, Ledger, Share};
use xet_history::Entry;

/// Entries are added to a history, whose length is `count`. The first of them has the number `from`, and their numbers are
/// added to `own`, where there is room for them. Each counts one in the ledger, for this share.
pub fn announce_all<J: Ledger>(
    word: &HistoryWord,
    entries: &[Entry],
    from: u64,
    writer: &mut Writer,
    count: &mut u64,
    book: &mut Book<J>,
    share: &mut Share<J>,
    own: &mut Vec<u64>,
)
    requires table { writer.old.table ≡ word.now }
    requires count { (count.old ≡ length writer.old.seen) × (count.old ≤ from) × (from + length entries.now < 2 ^ 63) }
    requires share { 0 < share.old.parts }
    requires room { vec_len own.old + length entries.now ≤ vec_capacity own.old }
    ensures writer { writer.new ≡ seen_by writer.old.table (writer.old.seen ++ entries.now) }
    ensures count { count.new ≡ count.old + length entries.now }
    ensures book { book.new.total ≡ book.old.total + length entries.now }
    ensures share { (share.new.parts ≡ share.old.parts) × (share.new.amount ≡ share.old.amount + length entries.now) }
    ensures own { own.new.items ≡ own.old.items ++ numbers_from from (length entries.now) }
{
    let mut rest = entries;
    let mut number = from;
    'entries: while let Some((first, tail)) = rest.split_first() {
        word.announce(writer, *count, first);
        book.add(share, 1);
        *count += 1;
        own.push_reserved(number);
        number += 1;
        rest = tail;
    }
}
