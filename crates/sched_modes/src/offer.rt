//! A burst that one worker is offered.
ghost use Rattle.std.specs.Prelude.{◌≡◌, ◌<◌, ◌≤◌, List, take, vec_len};
ghost use Rattle.std.specs.List.{All};
ghost use Rattle.crypto_model.specs.Process.{Transform};
ghost use Rattle.crypto_op.specs.Op.{IsFresh};
ghost use Rattle.dev_core.specs.Burst.{offered, rest_of, front, front_log};
ghost use Rattle.sched_core.specs.Pending.{IsRingSound, RingDone, InOrder};
ghost use Rattle.sched_modes.specs.Crew.{Grew, free, only_for, told};
ghost use Rattle.sched_modes.specs.Workers.{HasCause, RoomFell, SameBut, Serves, WentIn, WentInOrder, together, pending_with, places, ring_cap};

use crypto_op::OpBurst;
use dev_core::Driver;
use sched_core::{OrderRing, enqueue_through};

// How many of the burst's first `max` operations can be handed over, as far as the ring has places.
fn places_for<C: Drop>(ring: &Option<OrderRing<C>>, burst: &OpBurst<C>, max: usize) -> usize
    ensures { result ≡ free (places ring.now) (offered max burst.now) }
{
    let offered = max.min(burst.len());
    match ring {
        Some(ring) => offered.min(ring.free()),
        None => offered,
    }
}

/// Offers a burst to one worker, under the ring's next numbers where there is a ring. An empty burst isn't
/// handed over.
pub(crate) fn offer<C: Drop, D: Driver<C>>(
    ring: &mut Option<OrderRing<C>>,
    devs: &mut Vec<D>,
    workers: usize,
    turn: usize,
    burst: &mut OpBurst<C>,
    max: usize,
) -> usize
    requires turn { turn < workers }
    requires workers { workers ≤ vec_len devs.old }
    requires fresh { All IsFresh (take max burst.old.ops) }
    requires sound { IsRingSound ring.old (together D.Driver workers devs.old.items) }
    ensures offered { result ≤ free (places ring.old) (offered max burst.old) }
    ensures rest { burst.new ≡ rest_of result burst.old }
    ensures pending { WentIn (front result burst.old)
        (pending_with D.Driver ring.old workers devs.old.items) (pending_with D.Driver ring.new workers devs.new.items) }
    ensures in_order { InOrder ring.old → WentInOrder (front result burst.old)
        (pending_with D.Driver ring.old workers devs.old.items) (pending_with D.Driver ring.new workers devs.new.items) }
    ensures sound { IsRingSound ring.new (together D.Driver workers devs.new.items) }
    ensures answered { (sessions : List (List Transform)) → RingDone sessions ring.old → RingDone sessions ring.new }
    ensures cap { ring_cap ring.new ≡ ring_cap ring.old }
    ensures ring { Grew result (places ring.old) (places ring.new) }
    ensures serves { Serves D.Driver (only_for turn (told (places ring.old) (front_log result burst.old))) workers devs.old.items devs.new.items }
    ensures same { SameBut turn devs.old.items devs.new.items }
    ensures room { RoomFell D.Driver turn result devs.old.items devs.new.items }
    ensures cause { HasCause D.Driver turn (free (places ring.old) (offered max burst.old)) result devs.old.items devs.new.items }
    ensures len { vec_len devs.new ≡ vec_len devs.old }
{
    let most = places_for(ring, burst, max);
    if most == 0 {
        return 0;
    }
    let worker = &mut devs[turn];
    match ring {
        Some(ring) => enqueue_through(ring, worker, burst, most),
        None => worker.enqueue_burst(burst, most),
    }
}
