//! How a session and its passes begin.

ghost use Rattle.std.specs.Prelude.{◌≡◌, ◌≤◌, ◌+◌, [], IfErr, IfOk, false, length, true};
ghost use Rattle.xet_locked_session.specs.Passes.{holder_of, new_passes};
ghost use Rattle.xet_shared_history.specs.Seen.{seen_by};

use super::{
    Desk, Guarded, Known, LockedSession, Log, NamedStore, Opened, Pass, SharedStore,
    StoppingSession,
};
use crate::naming::Naming;
use std::alloc::{AllocError, Global};
use std::marker::PhantomData;
use std::sync::Mutex;
use std::sync::ledger::{Blank, Share};
use xet_hash::StoreError;
use xet_io::Disk;
use xet_shared_history::{HistoryWord, Writer};
use xet_store::Store;

impl Opened {
    /// For a session with this many passes.
    pub fn new(alloc: Global, passes: u32) -> Result<Opened, AllocError>
        ensures { IfOk result (λ o. o.blank.parts ≡ passes + 1) }
    {
        let (word, writer) = HistoryWord::new(alloc)?;
        Ok(Opened {
            word,
            writer,
            blank: Blank::new(u64::from(passes) + 1),
        })
    }
}

/// A pass that has seen the history of the store of which the session is made.
fn new_pass<J: Naming>(
    alloc: Global,
    word: &HistoryWord,
    writer: &mut Writer,
    rest: &mut Share<J>,
    number: u32,
    seen: u64,
) -> Pass<J>
    requires word { word.now ≡ J.table }
    requires writer { writer.old ≡ seen_by J.table [] }
    requires rest { (2 ≤ rest.old.parts) × (rest.old.amount ≡ 0) }
    requires seen { seen ≡ length J.store.history }
    ensures pass { result ≡ holder_of J.store number [] [] }
    ensures writer { writer.new ≡ writer.old }
    ensures rest { (rest.new.parts + 1 ≡ rest.old.parts) × (rest.new.amount ≡ 0) }
{
    let reader = word.reader(writer);
    let share = rest.split_off(1, 0);
    Pass {
        number,
        known: Known {
            reader,
            seen,
            own: Vec::new(alloc),
            share,
        },
    }
}

/// So many passes, with the numbers from 1 on.
fn new_passes_of<J: Naming>(
    alloc: Global,
    word: &HistoryWord,
    writer: &mut Writer,
    rest: &mut Share<J>,
    passes: u32,
    seen: u64,
) -> Result<Vec<Pass<J>>, AllocError>
    requires word { word.now ≡ J.table }
    requires writer { writer.old ≡ seen_by J.table [] }
    requires rest { (rest.old.parts ≡ passes + 1) × (rest.old.amount ≡ 0) }
    requires seen { seen ≡ length J.store.history }
    ensures passes { IfOk result (λ all. all.items ≡ new_passes J.store 1 passes) }
    ensures writer { writer.new ≡ writer.old }
    ensures rest { IfOk result (λ all. (rest.new.parts ≡ 1) × (rest.new.amount ≡ 0)) }
{
    let mut all = Vec::with_capacity(alloc, passes as usize)?;
    'numbers: for i in 0..passes {
        all.push_reserved(new_pass::<J>(alloc, word, writer, rest, i + 1, seen));
    }
    Ok(all)
}

impl<D: Disk, J: Naming> LockedSession<D, J> {
    /// A session of a store, and its passes, which have the numbers from 1 on and have seen its history. The only error is
    /// `OutOfMemory`, and returns the store.
    pub fn new(
        alloc: Global,
        opened: Opened,
        store: Store<D>,
        passes: u32,
    ) -> Result<(LockedSession<D, J>, Vec<Pass<J>>), (Store<D>, StoreError)>
        requires table { opened.word ≡ J.table }
        requires ledger { (opened.blank.name ≡ J.name) × (opened.blank.parts ≡ J.parts) × (J.parts ≡ passes + 1) }
        requires store { store ≡ J.store }
        requires going { J.stops ≡ false }
        ensures passes { IfOk result (λ r. r.1.items ≡ new_passes J.store 1 passes) }
        ensures err { IfErr result (λ e. (e.0 ≡ store) × (e.1 ≡ StoreError.OutOfMemory)) }
    {
        match SharedStore::new(alloc, opened, store, passes, false) {
            Ok((shared, all)) => Ok((LockedSession { shared }, all)),
            Err(error) => Err(error),
        }
    }
}

impl<D: Disk, J: Naming> StoppingSession<D, J> {
    /// A session of a store, and its passes, which have the numbers from 1 on and have seen its history. The only error is
    /// `OutOfMemory`, and returns the store.
    pub fn new(
        alloc: Global,
        opened: Opened,
        store: Store<D>,
        passes: u32,
    ) -> Result<(StoppingSession<D, J>, Vec<Pass<J>>), (Store<D>, StoreError)>
        requires table { opened.word ≡ J.table }
        requires ledger { (opened.blank.name ≡ J.name) × (opened.blank.parts ≡ J.parts) × (J.parts ≡ passes + 1) }
        requires store { store ≡ J.store }
        requires stops { J.stops ≡ true }
        ensures passes { IfOk result (λ r. r.1.items ≡ new_passes J.store 1 passes) }
        ensures err { IfErr result (λ e. (e.0 ≡ store) × (e.1 ≡ StoreError.OutOfMemory)) }
    {
        match SharedStore::new(alloc, opened, store, passes, true) {
            Ok((shared, all)) => Ok((StoppingSession { shared }, all)),
            Err(error) => Err(error),
        }
    }
}

impl<D: Disk, J: Naming> SharedStore<D, J> {
    /// The same, where the first step that fails is or is not the last one.
    fn new(
        alloc: Global,
        opened: Opened,
        store: Store<D>,
        passes: u32,
        stops: bool,
    ) -> Result<(SharedStore<D, J>, Vec<Pass<J>>), (Store<D>, StoreError)>
        requires table { opened.word ≡ J.table }
        requires ledger { (opened.blank.name ≡ J.name) × (opened.blank.parts ≡ J.parts) × (J.parts ≡ passes + 1) }
        requires store { store ≡ J.store }
        requires stops { stops ≡ J.stops }
        ensures passes { IfOk result (λ r. r.1.items ≡ new_passes J.store 1 passes) }
        ensures err { IfErr result (λ e. (e.0 ≡ store) × (e.1 ≡ StoreError.OutOfMemory)) }
    {
        let Opened {
            word,
            mut writer,
            blank,
        } = opened;
        let (book, mut rest) = blank.open::<J>();
        let seen = store.history().len() as u64;
        let limits = *store.limits();
        match new_passes_of::<J>(alloc, &word, &mut writer, &mut rest, passes, seen) {
            Ok(all) => {
                let desk = Desk {
                    store: NamedStore {
                        store,
                        of: PhantomData,
                    },
                    log: Log {
                        writer,
                        count: 0,
                        book,
                        rest,
                    },
                };
                let guarded = Guarded {
                    desk,
                    stops,
                    stopped: false,
                };
                let shared = SharedStore {
                    word,
                    limits,
                    desk: Mutex::new(guarded),
                };
                Ok((shared, all))
            }
            Err(AllocError) => Err((store, StoreError::OutOfMemory)),
        }
    }
}
