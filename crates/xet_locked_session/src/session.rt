//! `LockedSession` and `StoppingSession`, what is under their lock, and their passes.

ghost use Rattle.std.specs.Prelude.{◌≡◌, [], false, true};
ghost use Rattle.xet_shared_history.specs.Seen.{seen_by};

mod closing;
mod guarding;
mod locked;
mod making;
mod named;
mod passes;
mod sharing;
mod steps;
mod stopping;
mod telling;

use crate::naming::Naming;
use std::marker::{Model, PhantomData};
use std::sync::Mutex;
use std::sync::ledger::{Blank, Book, Share};
use xet_cut::Limits;
use xet_io::Disk;
use xet_shared_history::{HistoryWord, Reader, Writer};
use xet_store::Store;

/// A store, with a type that names what it was when the session was made. Contracts see the store.
#[derive(Drop)]
pub struct NamedStore<D: Disk, J: Naming> {
    store: Store<D>,
    of: PhantomData<J>,
}

impl<D: Disk, J: Naming> Model for NamedStore<D, J> {
    ghost use Rattle.xet_store.specs.Coding.{recorded_code};
    ghost use Rattle.xet_store.specs.Recorded.{RecordedState};
    ghost use Rattle.xet_locked_session.specs.Session.{IsSince};

    ghost Value = { RecordedState };

    ghost coded = { recorded_code };

    ghost view = { λ s. s.store };

    ghost invariant = { λ s. IsSince J.store s.store };
}

/// The store of a session, and what counts its history. Contracts see the store.
#[derive(Drop)]
pub struct Desk<D: Disk, J: Naming> {
    store: NamedStore<D, J>,
    log: Log<J>,
}

/// What counts the history since the session was made.
#[derive(Drop)]
pub struct Log<J: Naming> {
    writer: Writer,
    /// The number of entries since the session was made.
    count: u64,
    book: Book<J>,
    /// The part of the ledger that no pass has.
    rest: Share<J>,
}

impl<D: Disk, J: Naming> Model for Desk<D, J> {
    ghost use Rattle.std.specs.Prelude.{◌≡◌, ◌++◌, length};
    ghost use Rattle.xet_store.specs.Coding.{recorded_code};
    ghost use Rattle.xet_store.specs.Recorded.{RecordedState};

    ghost Value = { RecordedState };

    ghost coded = { recorded_code };

    ghost view = { λ s. s.store };

    ghost invariant = { λ s. (s.log.writer.table ≡ J.table) × (s.store.history ≡ J.store.history ++ s.log.writer.seen) × (s.log.count ≡ length s.log.writer.seen) × (s.log.book.total ≡ length s.log.writer.seen) × (s.log.rest.parts ≡ 1) × (s.log.rest.amount ≡ 0) };
}

/// What is under the lock: the store, what counts its history, and whether steps are still made. Contracts see the store.
#[derive(Drop)]
pub struct Guarded<D: Disk, J: Naming> {
    desk: Desk<D, J>,
    /// Whether the first step that fails is the last one.
    stops: bool,
    /// Whether the last step was made.
    stopped: bool,
}

impl<D: Disk, J: Naming> Model for Guarded<D, J> {
    ghost use Rattle.std.specs.Prelude.{◌≡◌};
    ghost use Rattle.xet_store.specs.Coding.{recorded_code};
    ghost use Rattle.xet_store.specs.Recorded.{RecordedState};
    ghost use Rattle.xet_locked_session.specs.internal.Guarded.{IsGuarded};

    ghost Value = { RecordedState };

    ghost coded = { recorded_code };

    ghost view = { λ s. s.desk };

    ghost invariant = { λ s. (s.stops ≡ J.stops) × IsGuarded J.store J.stops s.stopped s.desk };
}

/// One of several that share a session: what it has seen of the history, and which entries are its own. Contracts see a `Holder`
/// that has not stopped.
#[derive(Drop)]
pub struct Pass<J: Naming> {
    number: u32,
    known: Known<J>,
}

/// What a pass has seen, and the numbers of its own entries.
#[derive(Drop)]
pub struct Known<J: Naming> {
    reader: Reader,
    /// The length of the history that it has seen.
    seen: u64,
    own: Vec<u64>,
    share: Share<J>,
}

impl<J: Naming> Model for Pass<J> {
    ghost use Rattle.std.specs.Prelude.{◌≡◌, ◌++◌, length};
    ghost use Rattle.xet_history.specs.History.{Legal};
    ghost use Rattle.xet_shared_history.specs.Owned.{AreOwn};
    ghost use Rattle.xet_store.specs.Holders.{Holder};
    ghost use Rattle.xet_store.specs.Recorded.{core_of};
    ghost use Rattle.xet_locked_session.specs.Coding.{holder_code};
    ghost use Rattle.xet_locked_session.specs.Passes.{holder_of};

    ghost Value = { Holder };

    ghost coded = { holder_code };

    ghost view = { λ p. holder_of J.store p.number p.known.own.items p.known.reader.seen };

    ghost invariant = { λ p. (p.known.reader.table ≡ J.table) × (p.known.seen ≡ length (J.store.history ++ p.known.reader.seen)) × AreOwn p.number (J.store.history ++ p.known.reader.seen) (length J.store.history) p.known.own.items × Legal J.store.store.tells (core_of J.store) p.known.reader.seen
        × (p.known.share.parts ≡ 1) × (p.known.share.amount ≡ length p.known.own.items) };
}

/// A store under a lock, where the first step that fails may be the last one.
#[derive(Drop)]
pub(crate) struct SharedStore<D: Disk, J: Naming> {
    word: HistoryWord,
    /// The limits of the store.
    limits: Limits,
    desk: Mutex<Guarded<D, J>>,
    ghost named: { word ≡ J.table },
    ghost limited: { limits ≡ J.store.store.limits },
}

/// A store under a lock. Each of its passes makes steps of it, and knows what it has seen of the history.
#[derive(Drop)]
pub struct LockedSession<D: Disk, J: Naming> {
    shared: SharedStore<D, J>,
    ghost going: { J.stops ≡ false },
}

/// A store under a lock, of which the first step that fails is the last one: no step is made after it. `Passing` makes the
/// steps of its passes.
#[derive(Drop)]
pub struct StoppingSession<D: Disk, J: Naming> {
    shared: SharedStore<D, J>,
    ghost stops: { J.stops ≡ true },
}

/// What a session is made from: a table and a ledger that no type names yet. So they can be named before the session is made.
#[derive(Drop)]
pub struct Opened {
    /// Counts the history.
    pub word: HistoryWord,
    writer: Writer,
    /// Counts the entries of the passes.
    pub blank: Blank,
    pub ghost fresh: { writer ≡ seen_by word [] },
}
