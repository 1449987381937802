//! What comes out of the workers.
ghost use Rattle.std.specs.Prelude.{◌≡◌, ◌+◌, ◌^◌, ◌<◌, ◌≤◌, [], List, length, vec_len, Some};
ghost use Rattle.std.specs.List.{All};
ghost use Rattle.crypto_model.specs.Counts.{capped};
ghost use Rattle.crypto_model.specs.Process.{Transform};
ghost use Rattle.crypto_op.specs.Op.{IsDone};
ghost use Rattle.dev_core.specs.Burst.{room_of, added, with_ops};
ghost use Rattle.sched_core.specs.Pending.{pending_of, IsRingSound, SlotDone, RingDone, InOrder};
ghost use Rattle.sched_core.specs.Stopped.{EachAlike};
ghost use Rattle.sched_modes.specs.Crew.{Kept};
ghost use Rattle.sched_modes.specs.Workers.{CameInOrder, CameOut, EachStalled, NotReady, RingFits, Serves, Taken, together, pending_with, places, ring_cap};

use crypto_op::OpBurst;
use dev_core::Driver;
use sched_core::{Front, OrderRing, settle_all};

// All that the workers give goes into the ring.
fn collect<C: Drop, D: Driver<C>>(
    ring: &mut OrderRing<C>,
    devs: &mut Vec<D>,
    workers: usize,
    scratch: &mut OpBurst<C>,
)
    requires workers { workers ≤ vec_len devs.old }
    requires sound { IsRingSound (Some ring.old) (together D.Driver workers devs.old.items) }
    requires empty { scratch.old.ops ≡ [] }
    requires fits { ring.old.cap ≤ scratch.old.cap }
    ensures sound { IsRingSound (Some ring.new) (together D.Driver workers devs.new.items) }
    ensures pending { pending_of (Some ring.new) (together D.Driver workers devs.new.items)
        ≡ pending_of (Some ring.old) (together D.Driver workers devs.old.items) }
    ensures done { (sessions : List (List Transform))
        → EachAlike D.sessions sessions workers devs.old.items → All (SlotDone sessions) ring.old.slots → All (SlotDone sessions) ring.new.slots }
    ensures ring { (ring.new.cap ≡ ring.old.cap) × (ring.new.first ≡ ring.old.first) × (length ring.new.slots ≡ length ring.old.slots) }
    ensures scratch { scratch.new ≡ scratch.old }
    ensures serves { Serves D.Driver (λ k. []) workers devs.old.items devs.new.items }
    ensures stalled { EachStalled D.Driver workers devs.old.items devs.new.items }
    ensures len { vec_len devs.new ≡ vec_len devs.old }
{
    for i in 0..workers {
        let most = scratch.room();
        let worker = &mut devs[i];
        worker.dequeue_burst(scratch, most);
        settle_all(ring, scratch);
    }
}

// The settled operations at the ring's front, at most so many.
fn give_front<C: Drop>(ring: &mut OrderRing<C>, out: &mut OpBurst<C>, asked: usize) -> usize
    requires room { asked ≤ room_of out.old }
    requires first { ring.old.first < 2 ^ 64 }
    ensures within { result ≤ asked }
    ensures kept { out.new ≡ with_ops (added out.old out.new) out.old }
    ensures count { length out.new.ops ≡ length out.old.ops + result }
    ensures taken { Taken ring.old ring.new (added out.old out.new) }
    ensures front { result < asked → NotReady (Some ring.new) }
{
    let mut n = 0;
    for _i in 0..asked {
        match ring.front() {
            Front::Settled => {
                let op = ring.take_front();
                out.push(op);
                n += 1;
            }
            Front::Open(_) => break,
            Front::Empty => break,
        }
    }
    n
}

// What workers without a ring give, at most so many.
fn gather<C, D: Driver<C>>(
    devs: &mut Vec<D>,
    workers: usize,
    out: &mut OpBurst<C>,
    asked: usize,
) -> usize
    requires workers { workers ≤ vec_len devs.old }
    requires room { asked ≤ room_of out.old }
    ensures within { result ≤ asked }
    ensures kept { out.new ≡ with_ops (added out.old out.new) out.old }
    ensures count { length out.new.ops ≡ length out.old.ops + result }
    ensures held { CameOut (added out.old out.new) (together D.Driver workers devs.old.items) (together D.Driver workers devs.new.items) }
    ensures done { (sessions : List (List Transform)) → EachAlike D.sessions sessions workers devs.old.items → All (IsDone sessions) (added out.old out.new) }
    ensures serves { Serves D.Driver (λ k. []) workers devs.old.items devs.new.items }
    ensures stalled { result < asked → EachStalled D.Driver workers devs.old.items devs.new.items }
    ensures len { vec_len devs.new ≡ vec_len devs.old }
{
    let mut n = 0;
    for i in 0..workers {
        let worker = &mut devs[i];
        n += worker.dequeue_burst(out, asked - n);
    }
    n
}

/// What comes out, in order where there is a ring. Every worker is asked, so that one that still holds
/// something has stalled where fewer came than were asked for.
pub(crate) fn draw<C: Drop, D: Driver<C>>(
    ring: &mut Option<OrderRing<C>>,
    devs: &mut Vec<D>,
    workers: usize,
    scratch: &mut OpBurst<C>,
    out: &mut OpBurst<C>,
    asked: usize,
) -> usize
    requires workers { workers ≤ vec_len devs.old }
    requires sound { IsRingSound ring.old (together D.Driver workers devs.old.items) }
    requires empty { scratch.old.ops ≡ [] }
    requires fits { RingFits ring.old scratch.old.cap }
    requires room { asked ≤ room_of out.old }
    ensures within { result ≤ asked }
    ensures kept { out.new ≡ with_ops (added out.old out.new) out.old }
    ensures count { length out.new.ops ≡ length out.old.ops + result }
    ensures pending { CameOut (added out.old out.new)
        (pending_with D.Driver ring.old workers devs.old.items) (pending_with D.Driver ring.new workers devs.new.items) }
    ensures in_order { InOrder ring.old → CameInOrder (added out.old out.new)
        (pending_with D.Driver ring.old workers devs.old.items) (pending_with D.Driver ring.new workers devs.new.items) }
    ensures done { (sessions : List (List Transform))
        → EachAlike D.sessions sessions workers devs.old.items → RingDone sessions ring.old → All (IsDone sessions) (added out.old out.new) }
    ensures answered { (sessions : List (List Transform))
        → EachAlike D.sessions sessions workers devs.old.items → RingDone sessions ring.old → RingDone sessions ring.new }
    ensures sound { IsRingSound ring.new (together D.Driver workers devs.new.items) }
    ensures fits { RingFits ring.new scratch.old.cap }
    ensures scratch { scratch.new ≡ scratch.old }
    ensures cap { ring_cap ring.new ≡ ring_cap ring.old }
    ensures ring { Kept (places ring.old) (places ring.new) }
    ensures front { result < asked → NotReady ring.new }
    ensures serves { Serves D.Driver (λ k. []) workers devs.old.items devs.new.items }
    ensures stalled { result < asked → EachStalled D.Driver workers devs.old.items devs.new.items }
    ensures len { vec_len devs.new ≡ vec_len devs.old }
{
    match ring {
        Some(ring) => {
            collect(ring, devs, workers, scratch);
            give_front(ring, out, asked)
        }
        None => gather(devs, workers, out, asked),
    }
}

/// How many operations the workers hold, or the last value of a `usize` where they are more.
pub(crate) fn held_by<C, D: Driver<C>>(devs: &Vec<D>, workers: usize) -> usize
    requires { workers ≤ vec_len devs.now }
    ensures { result ≡ capped (length (together D.Driver workers devs.now.items)) }
{
    let mut sum: usize = 0;
    for i in 0..workers {
        sum = sum.saturating_add(devs[i].held());
    }
    sum
}
