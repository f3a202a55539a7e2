//! `Seat`: where a worker finds its pass, and puts what it made.

ghost use Rattle.std.specs.Prelude.{◌≡◌, ◌⊎◌, ◌≤◌, ◌+◌, ◌++◌, ◌∷◌, [], Err, IfErr, IfOk, IsErrAnd, IsOkAnd, List, Ok, Some, length, map, vec_capacity};
ghost use Rattle.xet_store.specs.Holders.{Holder};
ghost use Rattle.xet_store_disk.specs.Separate.{Among};

use std::alloc::{AllocError, Global};
use xet_clean::Working;
use xet_hash::StoreError;
use xet_locked_session::{Naming, Pass};

/// The seat of a worker: its pass, if that lies there, and what the worker made of its part of the sources, or why not.
#[derive(Drop)]
pub(crate) struct Seat<J: Naming> {
    pub pass: Option<Pass<J>>,
    pub made: Result<Working, StoreError>,
}

/// The numbers of some workers: the number of the first pass, and the number by which errors name their first source.
#[derive(Clone, Copy)]
pub(crate) struct Numbers {
    pub pass: u32,
    pub source: u32,
}

/// Room for what workers have: their seats, and their passes and what they made once these are taken out of the seats.
#[derive(Drop)]
pub(crate) struct Room<J: Naming> {
    pub seats: Vec<Seat<J>>,
    pub passes: Vec<Pass<J>>,
    pub workings: Vec<Working>,
}

impl<J: Naming> Room<J> {
    /// Room for so many workers.
    pub(crate) fn new(alloc: Global, workers: usize) -> Result<Room<J>, AllocError>
        ensures empty { IfOk result (λ r. (r.seats.items ≡ []) × (r.passes.items ≡ []) × (r.workings.items ≡ [])) }
        ensures room { IfOk result (λ r. (workers ≤ vec_capacity r.seats) × (workers ≤ vec_capacity r.passes) × (workers ≤ vec_capacity r.workings)) }
    {
        Ok(Room {
            seats: Vec::with_capacity(alloc, workers)?,
            passes: Vec::with_capacity(alloc, workers)?,
            workings: Vec::with_capacity(alloc, workers)?,
        })
    }
}

/// A seat for each pass, in order, with the pass in it. Nothing was made so far.
pub(crate) fn take_seats<J: Naming>(seats: &mut Vec<Seat<J>>, passes: Vec<Pass<J>>)
    requires room { (seats.old.items ≡ []) × (length passes.items ≤ vec_capacity seats.old) }
    ensures { map (λ s. s.pass) seats.new.items ≡ map (λ p. Some p) passes.items }
{
    for pass in passes {
        seats.push_reserved(Seat {
            pass: Some(pass),
            made: Err(StoreError::OutOfMemory),
        });
    }
}

/// The passes are taken out of the seats, in order; and what the workers made, or the error of one of them.
pub(crate) fn leave_seats<J: Naming>(
    room: Room<J>,
) -> (Vec<Pass<J>>, Result<Vec<Working>, StoreError>)
    requires empty { (room.passes.items ≡ []) × (room.workings.items ≡ []) }
    requires room { (length room.seats.items ≤ vec_capacity room.passes) × (length room.seats.items ≤ vec_capacity room.workings) }
    requires there { (ps : List Holder) × (map (λ s. s.pass) room.seats.items ≡ map (λ p. Some p) ps) }
    ensures passes { map (λ s. s.pass) room.seats.items ≡ map (λ p. Some p) result.0.items }
    ensures workings { IfOk result.1 (λ ws. map (λ s. s.made) room.seats.items ≡ map (λ w. Ok w) ws.items) }
    ensures error { IfErr result.1 (λ e. Among (map (λ s. s.made) room.seats.items) (Err e)) }
{
    let Room {
        seats,
        mut passes,
        workings,
    } = room;
    let mut made = Ok(workings);
    for seat in seats {
        let Seat { pass, made: part } = seat;
        let Some(pass) = pass else { unreachable!() };
        passes.push_reserved(pass);
        made = with_next(made, part);
    }
    (passes, made)
}

/// With what one more worker made; or, by the code, the first error, unless it says only that memory is out, as does the error of
/// a worker that was stopped, and there is another.
fn with_next(
    made: Result<Vec<Working>, StoreError>,
    next: Result<Working, StoreError>,
) -> Result<Vec<Working>, StoreError>
    requires room { IfOk made (λ ws. length ws.items + 1 ≤ vec_capacity ws) }
    ensures all { IfOk result (λ all. IsOkAnd made (λ ws. IsOkAnd next (λ w. (all.items ≡ ws.items ++ (w ∷ [])) × (vec_capacity all ≡ vec_capacity ws)))) }
    ensures error { IfErr result (λ e. IsErrAnd made (λ d. e ≡ d) ⊎ IsErrAnd next (λ d. e ≡ d)) }
{
    match made {
        Ok(made) => pushed(made, next),
        Err(error) => Err(cause_of(error, next)),
    }
}

/// With what one more worker made, if it did not fail.
fn pushed(made: Vec<Working>, next: Result<Working, StoreError>) -> Result<Vec<Working>, StoreError>
    requires room { length made.items + 1 ≤ vec_capacity made }
    ensures all { IfOk result (λ all. IsOkAnd next (λ w. (all.items ≡ made.items ++ (w ∷ [])) × (vec_capacity all ≡ vec_capacity made))) }
    ensures error { IfErr result (λ e. IsErrAnd next (λ d. e ≡ d)) }
{
    let mut all = made;
    all.push_reserved(next?);
    Ok(all)
}

/// The error, unless it says only that memory is out and there is another; by the code.
fn cause_of(error: StoreError, next: Result<Working, StoreError>) -> StoreError
    ensures { (result ≡ error) ⊎ IsErrAnd next (λ e. result ≡ e) }
{
    match (error, next.err()) {
        (StoreError::OutOfMemory, Some(other)) => other,
        _ => error,
    }
}
