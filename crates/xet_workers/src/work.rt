//! One worker: it takes its pass, and cleans the files of its part of the sources.

ghost use Rattle.std.specs.Prelude.{◌≡◌, ◌≤◌, ◌<◌, ◌+◌, ◌^◌, [], Bool, Err, IfErr, IfOk, Ok, Some, length, map, false, vec_capacity};
ghost use Rattle.xet_aggregate.specs.Aggregate.{empty};
ghost use Rattle.xet_aggregate.specs.Metrics.{zeros};
ghost use Rattle.xet_clean.specs.Sources.{HasCleaned, IsCutShort, IsLoopError};
ghost use Rattle.xet_clean.specs.declared.policy.Sha256Policy.TheVariants.{Compute};
ghost use Rattle.xet_locked_session.specs.Passes.{IsPassOf};
ghost use Rattle.xet_locked_session.specs.Passing.{IsPassing, passing_of};
ghost use Rattle.xet_store_disk.specs.Cleaning.{AreTaken, Later};
ghost use Rattle.xet_workers.specs.Workers.{HasEnded, HasPassed, IsReady, NamesWithin, later_source};

use crate::behind::Behind;
use crate::crew::Crew;
use crate::seat::{Numbers, Seat};
use std::alloc::Global;
use std::sync::Wait;
use std::thread::Threads;
use xet_clean::{Sha256Policy, Working, clean_each};
use xet_hash::{Place, StoreError, What};
use xet_io::{Disk, Source};
use xet_locked_session::{Naming, Pass, Passing};
use xet_store::Asking;

/// Cleans the sources over a pass of the session, and returns the pass. Errors name the sources from 0 on.
fn clean_part<D: Disk, J: Naming, S: Source, R: Threads + Wait>(
    crew: &Crew<'_, D, J, R>,
    pass: Pass<J>,
    sources: &mut [S],
) -> (Pass<J>, Result<Working, StoreError>)
    requires count { length sources.old ≤ 2 ^ 20 }
    requires pass { IsPassOf J.store pass × (pass.own ≡ []) }
    ensures cleaned { IfOk result.1 (λ w. HasPassed J.store pass.number pass result.0 false × HasCleaned Compute S.tells S.left S.faults sources.old sources.new (passing_of pass pass false) (passing_of pass result.0 false) w.cleaned.infos.items w.cleaned.choices.items w.cleaned.metrics w.aggregate) }
    ensures refused { IfErr result.1 (λ e. (stopped : Bool) × HasPassed J.store pass.number pass result.0 stopped × (IsLoopError S.tells S.left S.faults sources.old sources.new (passing_of pass pass false) (passing_of pass result.0 stopped) e × IsCutShort [] Compute S.tells S.left sources.old sources.new (passing_of pass pass false) (passing_of pass result.0 stopped) e)) }
    ensures tell { map S.tells sources.new ≡ map S.tells sources.old }
    ensures taken { AreTaken S.tells S.left sources.old sources.new }
    ensures later { Later S.faults sources.old sources.new }
{
    let working = Working::new(crew.alloc, sources.len());
    let passing = Passing::new_stopping(crew.rt, crew.session, pass);
    passing.recall_passing();
    match working {
        Ok(working) => clean_whole(crew, passing, working, sources),
        Err(error) => (passing.into_pass(), Err(error)),
    }
}

/// The same, with what it needs: nothing was made of any source so far, and there is room for what will be.
fn clean_whole<D: Disk, J: Naming, S: Source, R: Threads + Wait>(
    crew: &Crew<'_, D, J, R>,
    passing: Passing<'_, D, J, R>,
    working: Working,
    sources: &mut [S],
) -> (Pass<J>, Result<Working, StoreError>)
    requires count { length sources.old ≤ 2 ^ 20 }
    requires passing { (passing.start ≡ passing.pass) × (passing.stopped ≡ false) × (passing.pass.own ≡ []) }
    requires pass { IsPassOf J.store passing.pass }
    requires nothing { (working.cleaned.infos.items ≡ []) × (working.cleaned.choices.items ≡ []) × (working.cleaned.metrics ≡ zeros) × (working.aggregate ≡ empty) }
    requires room { (length sources.old ≤ vec_capacity working.cleaned.infos) × (length sources.old ≤ vec_capacity working.cleaned.choices) }
    ensures cleaned { IfOk result.1 (λ w. HasPassed J.store passing.entry.pass.number passing.entry.pass result.0 false × HasCleaned Compute S.tells S.left S.faults sources.old sources.new (passing_of passing.entry.pass passing.entry.pass false) (passing_of passing.entry.pass result.0 false) w.cleaned.infos.items w.cleaned.choices.items w.cleaned.metrics w.aggregate) }
    ensures refused { IfErr result.1 (λ e. (stopped : Bool) × HasPassed J.store passing.entry.pass.number passing.entry.pass result.0 stopped × (IsLoopError S.tells S.left S.faults sources.old sources.new (passing_of passing.entry.pass passing.entry.pass false) (passing_of passing.entry.pass result.0 stopped) e × IsCutShort [] Compute S.tells S.left sources.old sources.new (passing_of passing.entry.pass passing.entry.pass false) (passing_of passing.entry.pass result.0 stopped) e)) }
    ensures tell { map S.tells sources.new ≡ map S.tells sources.old }
    ensures taken { AreTaken S.tells S.left sources.old sources.new }
    ensures later { Later S.faults sources.old sources.new }
{
    let asking = Asking::new(passing);
    let mut digest = Behind::new(crew.rt, crew.alloc, crew.blocks_behind);
    let (asking, working) = clean_each(
        crew.alloc,
        asking,
        working,
        sources,
        &Sha256Policy::Compute,
        &mut digest,
    );
    let passing = asking.into_steps();
    passing.recall_passing();
    (passing.into_pass(), working)
}

/// Cleans the sources with the pass that lies in the seat, and puts it back there, with what was made of them. After an error it
/// stops the session, by the code.
pub(crate) fn work<D: Disk, J: Naming, S: Source, R: Threads + Wait>(
    crew: &Crew<'_, D, J, R>,
    seat: &mut Seat<J>,
    from: Numbers,
    sources: &mut [S],
)
    requires ready { IsReady J.store from.pass (record { pass = seat.old.pass; made = seat.old.made }) }
    requires numbers { from.source + length sources.old ≤ 2 ^ 20 }
    ensures ended { HasEnded S.tells S.left S.faults J.store from.pass from.source sources.old sources.new (record { pass = seat.new.pass; made = seat.new.made }) }
    ensures tell { map S.tells sources.new ≡ map S.tells sources.old }
    ensures taken { AreTaken S.tells S.left sources.old sources.new }
    ensures later { Later S.faults sources.old sources.new }
{
    let Some(pass) = seat.pass.take() else {
        unreachable!()
    };
    let (pass, made) = clean_part(crew, pass, sources);
    if made.is_err() {
        crew.session.stop(crew.rt);
    }
    seat.pass = Some(pass);
    seat.made = made_from(made, from.source);
}

/// What a worker made, or why not. The error names the sources from `first` on.
fn made_from(made: Result<Working, StoreError>, first: u32) -> Result<Working, StoreError>
    requires small { IfErr made (λ e. NamesWithin (2 ^ 32) (later_source first e)) }
    ensures working { IfOk made (λ w. result ≡ Ok w) }
    ensures error { IfErr made (λ e. result ≡ Err (later_source first e)) }
{
    match made {
        Ok(working) => Ok(working),
        Err(error) => Err(shift_source(error, first)),
    }
}

/// The error, with the number of a source so much higher.
fn shift_source(error: StoreError, first: u32) -> StoreError
    requires small { NamesWithin (2 ^ 32) (later_source first error) }
    ensures { result ≡ later_source first error }
{
    match error {
        StoreError::Io(Place::Source(number)) => StoreError::Io(Place::Source(first + number)),
        StoreError::TooLarge(What::Source(number)) => {
            StoreError::TooLarge(What::Source(first + number))
        }
        error => error,
    }
}
