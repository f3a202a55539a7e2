//! Hashing many sources by several threads.

ghost use Rattle.std.specs.Prelude.{◌≡◌, ◌≤◌, ◌<◌, ◌+◌, ◌^◌, ◌++◌, [], IfErr, IfOk, OnOk, length, map, true};
ghost use Rattle.std.specs.List.{AllByRecursion};
ghost use Rattle.std.specs.Thread.{IsSend, IsSync};
ghost use Rattle.xet_hash_files.specs.Hashing.{HasHashReason, hashed_info};
ghost use Rattle.xet_hash_files.specs.internal.Sources.{AreHashed, AreLeft, IsPartError};
ghost use Rattle.xet_store_disk.specs.Cleaning.{AreTaken, EachTold, Later};

use crate::parts::hash_part;
use std::alloc::Global;
use std::marker::{Send, Sync};
use std::thread::{Threads, join_mut};
use xet_cut::Limits;
use xet_hash::StoreError;
use xet_io::Source;
use xet_store_disk::XetFileInfo;

/// Reads each of at most 2^20 sources to its end and returns the pointer record of its file, in order and without a SHA-256.
/// Nothing is stored. The sources are divided among the workers before the first is read, in order and evenly; with more workers
/// than sources some have none. Each worker runs on a thread of its own if one can be started, reads its sources one after
/// the other, and has a buffer of `limits.block_bytes()` bytes. A worker that fails does not stop the others; if several fail,
/// the error of the first one, in the order of the sources, is returned. `Io(Source(i))` is returned only if that source
/// failed, `TooLarge(Source(i))` only if it has more bytes than the limits allow; any other error is `OutOfMemory`.
pub fn hash_files<S: Source + Send, R: Threads + Sync>(
    rt: &R,
    alloc: Global,
    limits: &Limits,
    sources: &mut [S],
    workers: u32,
) -> Result<Vec<XetFileInfo>, StoreError>
    requires count { length sources.old ≤ 2 ^ 20 }
    requires workers { (1 ≤ workers) × (workers ≤ 256) }

    // If Ok, each source was read to its end, and each result is that of the bytes that it had left.
    ensures infos { IfOk result (λ infos. EachTold S.tells S.left (λ bytes info. info ≡ hashed_info limits.now bytes) sources.old infos.items) }
    ensures read { OnOk result (AllByRecursion (λ s. S.tells s ≡ true → S.left s ≡ []) sources.new) }
    ensures short { OnOk result (AllByRecursion (λ s. S.tells s ≡ true → length (S.left s) ≤ limits.now.max_source_bytes) sources.old) }

    // Each source is observable if and only if it was before. Whatever the result, a prefix of what it had left was taken, and
    // its count of failures has not fallen. An error has a reason.
    ensures sources_tell { map S.tells sources.new ≡ map S.tells sources.old }
    ensures sources_taken { AreTaken S.tells S.left sources.old sources.new }
    ensures sources_later { Later S.faults sources.old sources.new }
    ensures reason { IfErr result (HasHashReason S.tells S.left S.faults sources.old sources.new limits.now) }
{
    hash_divided(rt, alloc, limits, workers, 0, sources)
}

/// Divides the sources among so many workers, which hash them side by side. Errors name them from `first` on.
#[cycle(halves)]
fn hash_divided<S: Source + Send, R: Threads + Sync>(
    rt: &R,
    alloc: Global,
    limits: &Limits,
    workers: u32,
    first: u32,
    sources: &mut [S],
) -> Result<Vec<XetFileInfo>, StoreError>
    requires workers { (1 ≤ workers) × (workers ≤ 256) }
    requires numbers { first + length sources.old ≤ 2 ^ 20 }
    ensures hashed { IfOk result (λ infos. AreHashed S.tells S.left S.faults limits.now sources.old sources.new infos.items) }
    ensures left { AreLeft S.tells S.left S.faults sources.old sources.new }
    ensures refused { IfErr result (IsPartError S.tells S.left S.faults limits.now first sources.old sources.new) }
{
    if workers == 1 || sources.len() < 2 {
        return hash_part(alloc, limits, first, sources);
    }
    let low = workers / 2;
    let mid = share_of(sources.len(), low, workers);
    let (front, back) = sources.split_at_mut(mid);
    let up = first + mid as u32;
    hash_both(
        rt,
        alloc,
        limits,
        low,
        first,
        front,
        workers - low,
        up,
        back,
    )
}

/// Two parts that follow each other, each with workers of its own.
#[cycle(halves)]
fn hash_both<S: Source + Send, R: Threads + Sync>(
    rt: &R,
    alloc: Global,
    limits: &Limits,
    low: u32,
    first: u32,
    front: &mut [S],
    high: u32,
    up: u32,
    back: &mut [S],
) -> Result<Vec<XetFileInfo>, StoreError>
    requires low { (1 ≤ low) × (low ≤ 256) }
    requires high { (1 ≤ high) × (high ≤ 256) }
    requires numbers { (up ≡ first + length front.old) × (up + length back.old ≤ 2 ^ 20) }
    ensures hashed { IfOk result (λ infos. AreHashed S.tells S.left S.faults limits.now (front.old ++ back.old) (front.new ++ back.new) infos.items) }
    ensures left { AreLeft S.tells S.left S.faults (front.old ++ back.old) (front.new ++ back.new) }
    ensures refused { IfErr result (IsPartError S.tells S.left S.faults limits.now first (front.old ++ back.old) (front.new ++ back.new)) }
{
    let mut lower = || -> Result<Vec<XetFileInfo>, StoreError>
        requires { IsSync R.row × IsSend S.row × (1 ≤ low) × (low ≤ 256) × (first + length front.now ≤ 2 ^ 20) }
        ensures hashed { IfOk result (λ infos. AreHashed S.tells S.left S.faults limits.entry.now front.entry.now front.exit.now infos.items) }
        ensures left { AreLeft S.tells S.left S.faults front.entry.now front.exit.now }
        ensures refused { IfErr result (IsPartError S.tells S.left S.faults limits.entry.now first front.entry.now front.exit.now) }
    { hash_divided(rt, alloc, limits, low, first, front) };
    let mut upper = || -> Result<Vec<XetFileInfo>, StoreError>
        requires { IsSync R.row × IsSend S.row × (1 ≤ high) × (high ≤ 256) × (up + length back.now ≤ 2 ^ 20) }
        ensures hashed { IfOk result (λ infos. AreHashed S.tells S.left S.faults limits.entry.now back.entry.now back.exit.now infos.items) }
        ensures left { AreLeft S.tells S.left S.faults back.entry.now back.exit.now }
        ensures refused { IfErr result (IsPartError S.tells S.left S.faults limits.entry.now up back.entry.now back.exit.now) }
    { hash_divided(rt, alloc, limits, high, up, back) };
    let (a, b) = join_mut(rt, &mut lower, &mut upper);
    let mut all = a?;
    let mut rest = b?;
    all.append(&mut rest)?;
    Ok(all)
}

/// How many of `len` sources the first `low` of `workers` workers take.
fn share_of(len: usize, low: u32, workers: u32) -> usize
    requires len { len ≤ 2 ^ 20 }
    requires workers { (low < workers) × (workers ≤ 256) }
    ensures { result ≤ len }
{
    len * low as usize / workers as usize
}
