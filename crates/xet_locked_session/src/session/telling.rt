//! What a step of a pass added to the history becomes known.

ghost use Rattle.std.specs.Prelude.{◌≡◌, ◌≤◌, ◌<◌, ◌+◌, ◌-◌, ◌^◌, ◌++◌, drop, length, vec_capacity, vec_len};
ghost use Rattle.xet_shared_history.specs.Owned.{numbers_from};
ghost use Rattle.xet_shared_history.specs.Seen.{seen_by};

use super::{Known, Log};
use crate::naming::Naming;
use xet_history::Entry;
use xet_shared_history::{HistoryWord, announce_all};

/// The entries of a history from `from` on are counted as those of a pass, which has then seen the whole history.
pub(super) fn tell<J: Naming>(
    word: &HistoryWord,
    history: &[Entry],
    from: usize,
    log: &mut Log<J>,
    known: &mut Known<J>,
)
    requires tables { (log.old.writer.table ≡ word.now) × (known.old.reader.table ≡ word.now) }
    requires from { from ≤ length history.now }
    requires count { (log.old.count ≡ length log.old.writer.seen) × (log.old.count ≤ from) × (length history.now < 2 ^ 63) }
    requires share { 0 < known.old.share.parts }
    requires room { vec_len known.old.own + (length history.now - from) ≤ vec_capacity known.old.own }
    ensures writer { log.new.writer ≡ seen_by log.old.writer.table (log.old.writer.seen ++ drop from history.now) }
    ensures count { (log.new.count ≡ log.old.count + length (drop from history.now)) × (log.new.book.total ≡ log.old.book.total + length (drop from history.now)) }
    ensures rest { (log.new.rest.parts ≡ log.old.rest.parts) × (log.new.rest.amount ≡ log.old.rest.amount) }
    ensures reader { known.new.reader ≡ log.new.writer }
    ensures seen { known.new.seen ≡ length history.now }
    ensures own { known.new.own.items ≡ known.old.own.items ++ numbers_from from (length (drop from history.now)) }
    ensures share { (known.new.share.parts ≡ known.old.share.parts) × (known.new.share.amount ≡ known.old.share.amount + length (drop from history.now)) }
{
    announce_all(
        word,
        &history[from..],
        from as u64,
        &mut log.writer,
        &mut log.count,
        &mut log.book,
        &mut known.share,
        &mut known.own,
    );
    word.catch_up(&mut log.writer, &mut known.reader);
    known.seen = history.len() as u64;
}
