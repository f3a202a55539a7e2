//! The rule of the table that counts a history, and what its steps tell.

use atomic_table::{Join, Play, Split, TableRule};
use std::collections::LinkedList;
use xet_history::Entry;

/// What a seat knows. No value of it is made. The writer's seat keeps the history: it has seen all of it.
pub struct View {
    /// Whether it is the writer's.
    pub keeps: bool,
    /// What it has seen of the history.
    pub seen: LinkedList<Entry>,
    /// What it was told of: a prefix of the history, with which what it has seen was not compared yet.
    pub told: LinkedList<Entry>,
}

/// The one word of the table is the length of the history.
pub struct Counts;

impl TableRule<Entry, View, ()> for Counts {
    ghost use Rattle.std.specs.Prelude.{[]};
    ghost use Rattle.xet_shared_history.specs.internal.Rule.{IsCounted, writer_view};

    ghost holds = { λ _ s. IsCounted s.words s.views };

    ghost first = { λ _. writer_view [] };
}

/// The writer's seat adds an entry.
pub struct Adds;

impl Play<Entry, View> for Adds {
    ghost use Rattle.xet_shared_history.specs.internal.Rule.{Added};

    ghost then = { Added };
}

/// The writer's seat compares what it was told of with what it has seen.
pub struct Compares;

impl Play<Entry, View> for Compares {
    ghost use Rattle.xet_shared_history.specs.internal.Rule.{Compared};

    ghost then = { Compared };
}

/// A new seat has seen what another one has.
pub struct Copies;

impl Split<View> for Copies {
    ghost use Rattle.xet_shared_history.specs.internal.Rule.{copy_of};

    ghost left = { λ v. v };

    ghost right = { copy_of };
}

/// The writer's seat is told of what another one has seen.
pub struct Tells;

impl Join<View> for Tells {
    ghost use Rattle.xet_shared_history.specs.internal.Rule.{nothing_seen, told_of};

    ghost both = { told_of };

    ghost spent = { nothing_seen };
}

/// A reader's seat has seen what another one has.
pub struct Shows;

impl Join<View> for Shows {
    ghost use Rattle.xet_shared_history.specs.internal.Rule.{nothing_seen, shown};

    ghost both = { shown };

    ghost spent = { nothing_seen };
}
