//! `Naming`: what a session was when it was locked.

use std::marker::Brand;
use std::sync::ledger::Ledger;

/// What a session was when it was locked: the store, the table that counts its history from then on, and whether it stops at the
/// first failed step. A type of this kind is chosen by the call that makes the session, and holds for all its parts.
pub trait Naming: Ledger {
    ghost use Rattle.std.specs.Prelude.{Bool};
    ghost use Rattle.atomic_table.specs.Seated.{TableId};
    ghost use Rattle.xet_store.specs.Recorded.{RecordedState};

    /// The table, which counts the history from when the session was made.
    ghost table: { TableId };

    /// The store of which the session was made.
    ghost store: { RecordedState };

    /// Whether the first step that fails is the last one.
    ghost stops: { Bool };
}

impl Naming for Brand {
    ghost use Rattle.std.specs.Prelude.{false};
    ghost use Rattle.xet_locked_session.specs.internal.Nothing.{no_store, no_table};

    ghost table = { no_table };

    ghost store = { no_store };

    ghost stops = { false };
}
