//! Workers side by side.

ghost use Rattle.std.specs.Prelude.{◌≡◌, ◌≤◌, ◌<◌, ◌+◌, ◌*◌, ◌/◌, ◌^◌, ◌++◌, length, map};
ghost use Rattle.std.specs.Thread.{IsSend, IsSync};
ghost use Rattle.xet_store_disk.specs.Cleaning.{AreTaken, Later};
ghost use Rattle.xet_workers.specs.Workers.{AreReady, HaveEnded};

use crate::crew::Crew;
use crate::seat::{Numbers, Seat};
use crate::work::work;
use std::marker::{Send, Sync};
use std::sync::Wait;
use std::thread::{Threads, join_mut};
use xet_io::{Disk, Source};
use xet_locked_session::Naming;

/// Divides the sources among the workers of the seats, which clean them side by side, each over the pass in its seat. The passes
/// have consecutive numbers, and the sources too, by which errors name them.
#[cycle(halves)]
pub(crate) fn work_shared<
    D: Disk + Send,
    J: Naming + Send + Sync,
    S: Source + Send,
    R: Threads + Wait + Sync,
>(crew: &Crew<'_, D, J, R>, seats: &mut [Seat<J>], from: Numbers, sources: &mut [S])
    requires ready { AreReady J.store from.pass (map (λ s. record { pass = s.pass; made = s.made }) seats.old) }
    requires workers { (1 ≤ length seats.old) × (length seats.old ≤ 256) × (from.pass + length seats.old ≤ 2 ^ 31) }
    requires numbers { from.source + length sources.old ≤ 2 ^ 20 }
    ensures ended { HaveEnded S.tells S.left S.faults J.store from.pass from.source sources.old sources.new (map (λ s. record { pass = s.pass; made = s.made }) seats.new) }
    ensures tell { map S.tells sources.new ≡ map S.tells sources.old }
    ensures taken { AreTaken S.tells S.left sources.old sources.new }
    ensures later { Later S.faults sources.old sources.new }
{
    let workers = seats.len();
    if workers == 1 {
        work(crew, &mut seats[0], from, sources);
        return;
    }
    let half = workers / 2;
    let mid = share_of(sources.len(), half, workers);
    let next = Numbers {
        pass: from.pass + half as u32,
        source: from.source + mid as u32,
    };
    let (low, up) = seats.split_at_mut(half);
    let (front, back) = sources.split_at_mut(mid);
    work_both(crew, low, from, front, up, next, back);
}

/// Two parts that follow each other, each with workers of its own.
#[cycle(halves)]
fn work_both<D: Disk + Send, J: Naming + Send + Sync, S: Source + Send, R: Threads + Wait + Sync>(
    crew: &Crew<'_, D, J, R>,
    low: &mut [Seat<J>],
    from: Numbers,
    front: &mut [S],
    up: &mut [Seat<J>],
    next: Numbers,
    back: &mut [S],
)
    requires low { AreReady J.store from.pass (map (λ s. record { pass = s.pass; made = s.made }) low.old) × (1 ≤ length low.old) × (length low.old ≤ 256) }
    requires up { AreReady J.store next.pass (map (λ s. record { pass = s.pass; made = s.made }) up.old) × (1 ≤ length up.old) × (length up.old ≤ 256) }
    requires passes { (next.pass ≡ from.pass + length low.old) × (next.pass + length up.old ≤ 2 ^ 31) }
    requires numbers { (next.source ≡ from.source + length front.old) × (next.source + length back.old ≤ 2 ^ 20) }
    ensures ended { HaveEnded S.tells S.left S.faults J.store from.pass from.source (front.old ++ back.old) (front.new ++ back.new) (map (λ s. record { pass = s.pass; made = s.made }) (low.new ++ up.new)) }
    ensures tell { map S.tells (front.new ++ back.new) ≡ map S.tells (front.old ++ back.old) }
    ensures taken { AreTaken S.tells S.left (front.old ++ back.old) (front.new ++ back.new) }
    ensures later { Later S.faults (front.old ++ back.old) (front.new ++ back.new) }
{
    let mut lower = ||
        requires { IsSync R.row × IsSend S.row × IsSend D.row × IsSend J.row × IsSync J.row × AreReady J.store from.pass (map (λ s. record { pass = s.pass; made = s.made }) low.now) × (1 ≤ length low.now) × (length low.now ≤ 256) × (from.pass + length low.now ≤ 2 ^ 31) × (from.source + length front.now ≤ 2 ^ 20) }
        ensures ended { HaveEnded S.tells S.left S.faults J.store from.pass from.source front.entry.now front.exit.now (map (λ s. record { pass = s.pass; made = s.made }) low.exit.now) }
        ensures tell { map S.tells front.exit.now ≡ map S.tells front.entry.now }
        ensures taken { AreTaken S.tells S.left front.entry.now front.exit.now }
        ensures later { Later S.faults front.entry.now front.exit.now }
    { work_shared(crew, low, from, front) };
    let mut upper = ||
        requires { IsSync R.row × IsSend S.row × IsSend D.row × IsSend J.row × IsSync J.row × AreReady J.store next.pass (map (λ s. record { pass = s.pass; made = s.made }) up.now) × (1 ≤ length up.now) × (length up.now ≤ 256) × (next.pass + length up.now ≤ 2 ^ 31) × (next.source + length back.now ≤ 2 ^ 20) }
        ensures ended { HaveEnded S.tells S.left S.faults J.store next.pass next.source back.entry.now back.exit.now (map (λ s. record { pass = s.pass; made = s.made }) up.exit.now) }
        ensures tell { map S.tells back.exit.now ≡ map S.tells back.entry.now }
        ensures taken { AreTaken S.tells S.left back.entry.now back.exit.now }
        ensures later { Later S.faults back.entry.now back.exit.now }
    { work_shared(crew, up, next, back) };
    join_mut(crew.rt, &mut lower, &mut upper);
}

/// How many of `len` sources the first `low` of `workers` workers take.
fn share_of(len: usize, low: usize, workers: usize) -> usize
    requires len { len ≤ 2 ^ 20 }
    requires workers { (low < workers) × (workers ≤ 256) }
    ensures share { result ≡ len * low / workers }
    ensures within { result ≤ len }
{
    len * low / workers
}
