//! The table that counts a history, and its seats.

ghost use Rattle.std.specs.Prelude.{◌≡◌, ◌<◌, ◌^◌, ◌++◌, ◌∷◌, [], IfOk, length};
ghost use mathlib.Core.List.{IsPrefix};
ghost use Rattle.xet_shared_history.specs.Seen.{seen_by};

use crate::rule::{Adds, Compares, Copies, Counts, Shows, Tells, View};
use atomic_table::{Seat, Table};
use std::alloc::{AllocError, Global};
use std::marker::Model;
use xet_history::Entry;

type Words = Table<Entry, View, (), Counts, Global>;

type Place = Seat<Entry, View>;

/// The table that counts a history. Contracts see which table it is.
#[derive(Drop)]
pub struct HistoryWord {
    words: Words,
}

impl Model for HistoryWord {
    ghost use Rattle.std.specs.Prelude.{◌≡◌};
    ghost use Rattle.atomic_table.specs.Seated.{TableId};

    ghost Value = { TableId };

    ghost view = { λ w. w.words.shared.table_id };

    ghost invariant = { λ w. w.words.shared.table_id.words ≡ 1 };
}

/// The seat of the holder that adds to the history, of which it has seen all. Contracts see a `Seen`.
#[derive(Drop)]
pub struct Writer {
    seat: Place,
}

impl Model for Writer {
    ghost use Rattle.std.specs.Prelude.{◌≡◌, []};
    ghost use Rattle.xet_shared_history.specs.Seen.{Seen, seen_by};
    ghost use Rattle.xet_shared_history.specs.internal.Rule.{writer_view};

    ghost Value = { Seen };

    ghost view = { λ w. seen_by w.seat.table_id w.seat.me.0.seen };

    ghost invariant = { λ w. (w.seat.me.0 ≡ writer_view w.seat.me.0.seen) × (w.seat.me.1 ≡ []) };
}

/// The seat of a holder that has seen a prefix of the history. Contracts see a `Seen`.
#[derive(Drop)]
pub struct Reader {
    seat: Place,
}

impl Model for Reader {
    ghost use Rattle.std.specs.Prelude.{◌≡◌, []};
    ghost use Rattle.xet_shared_history.specs.Seen.{Seen, seen_by};
    ghost use Rattle.xet_shared_history.specs.internal.Rule.{reader_view};

    ghost Value = { Seen };

    ghost view = { λ r. seen_by r.seat.table_id r.seat.me.0.seen };

    ghost invariant = { λ r. (r.seat.me.0 ≡ reader_view r.seat.me.0.seen) × (r.seat.me.1 ≡ []) };
}

impl HistoryWord {
    /// The table of a history without entries, and its writer's seat.
    pub fn new(alloc: Global) -> Result<(HistoryWord, Writer), AllocError>
        ensures { IfOk result (λ r. r.1 ≡ seen_by r.0 []) }
    {
        let (words, seat) = Words::of_words(alloc, &[0], &())?;
        Ok((HistoryWord { words }, Writer { seat }))
    }

    /// The seat of a holder that has seen the whole history.
    pub fn reader(&self, writer: &mut Writer) -> Reader
        requires { writer.old.table ≡ self.now }
        ensures reader { result ≡ writer.old }
        ensures writer { writer.new ≡ writer.old }
    {
        Reader {
            seat: self.words.shared.split_seat::<Copies>(&mut writer.seat),
        }
    }

    /// Proof aid: makes it available to the caller that what a reader has seen is a prefix of the history. It changes neither
    /// seat.
    pub fn compare(&self, writer: &mut Writer, reader: &mut Reader)
        requires { (writer.old.table ≡ self.now) × (reader.old.table ≡ self.now) }
        ensures prefix { IsPrefix reader.old.seen writer.old.seen }
        ensures writer { writer.new ≡ writer.old }
        ensures reader { reader.new ≡ reader.old }
    {
        let copy = self.words.shared.split_seat::<Copies>(&mut reader.seat);
        self.words.shared.join_seat::<Tells>(&mut writer.seat, copy);
        self.words.shared.load::<Compares>(&mut writer.seat, 0);
    }

    /// A reader has seen the whole history.
    pub fn catch_up(&self, writer: &mut Writer, reader: &mut Reader)
        requires { (writer.old.table ≡ self.now) × (reader.old.table ≡ self.now) }
        ensures writer { writer.new ≡ writer.old }
        ensures reader { reader.new ≡ writer.old }
    {
        let copy = self.words.shared.split_seat::<Copies>(&mut writer.seat);
        self.words.shared.join_seat::<Shows>(&mut reader.seat, copy);
    }

    /// An entry is added to the history, which has this many.
    pub(crate) fn announce(&self, writer: &mut Writer, count: u64, entry: &Entry)
        requires table { writer.old.table ≡ self.now }
        requires count { (count ≡ length writer.old.seen) × (count < 2 ^ 63) }
        ensures { writer.new ≡ seen_by writer.old.table (writer.old.seen ++ entry.now ∷ []) }
    {
        self.words
            .shared
            .compare_exchange_with::<Adds>(&mut writer.seat, 0, count, count + 1, entry);
    }
}
