//! A burst that goes to a worker under numbers.
ghost use Rattle.std.specs.Prelude.{◌≡◌, ℕ, ◌+◌, ◌-◌, ◌<◌, ◌≤◌, ◌++◌, min, length, map, take, drop, IsPermutation, Some, option_map};
ghost use Rattle.std.specs.List.{All};
ghost use Rattle.std.specs.Option.{ForSome};
ghost use Rattle.crypto_op.specs.Op.{IsFresh};
ghost use Rattle.dev_core.specs.Burst.{offered, lens, rest_of, front, front_log};
ghost use Rattle.sched_core.specs.Logged.{renumbered};
ghost use Rattle.sched_core.specs.Ring.{number};
ghost use Rattle.crypto_model.specs.Counts.{Rose, capped};
ghost use Rattle.sched_core.specs.Pending.{opened, number_ops, numbered};

use crate::OrderRing;
use crypto_op::OpBurst;
use dev_core::Driver;
use std::snapshot::Snapshot;

// Numbers the first k operations of a burst.
fn number_front<C: Drop>(ring: &mut OrderRing<C>, burst: &mut OpBurst<C>, k: usize)
    requires enough { k ≤ length burst.old.ops }
    requires free { length ring.old.slots + k ≤ ring.old.cap }
    ensures burst { burst.new ≡ record burst.old { ops = number_ops (ring.old.first + length ring.old.slots) k burst.old.ops } }
    ensures ring { ring.new ≡ record ring.old { slots = ring.old.slots ++ map opened (take k burst.old.ops) } }
{
    for i in 0..k {
        let number = ring.open(burst.get(i).spec().pos);
        burst.set_pos(i, number);
    }
}

// Takes the newest k numbers back. The burst is what was numbered behind its first m operations.
fn restore_front<C: Drop>(
    ring: &mut OrderRing<C>,
    burst: &mut OpBurst<C>,
    was: &Snapshot<OpBurst<C>>,
    before: &Snapshot<OrderRing<C>>,
    m: usize,
    k: usize,
)
    requires enough { m + k ≤ length was.now.value.ops }
    requires burst { burst.old.ops ≡ drop m (number_ops (before.now.value.first + length before.now.value.slots) (m + k) was.now.value.ops) }
    requires ring { ring.old.slots ≡ before.now.value.slots ++ map opened (take (m + k) was.now.value.ops) }
    ensures burst { burst.new ≡ record burst.old { ops = drop m (number_ops (before.now.value.first + length before.now.value.slots) m was.now.value.ops) } }
    ensures ring { ring.new ≡ record ring.old { slots = before.now.value.slots ++ map opened (take m was.now.value.ops) } }
{
    for i in 0..k {
        let saved = ring.undo();
        burst.set_pos(k - 1 - i, saved);
    }
}

/// Offers a burst to a worker, under the ring's next numbers.
pub fn enqueue_through<C: Drop, D: Driver<C>>(
    ring: &mut OrderRing<C>,
    worker: &mut D,
    burst: &mut OpBurst<C>,
    max: usize,
) -> usize
    requires fresh { All IsFresh (take max burst.old.ops) }
    ensures offered { result ≤ min (offered max burst.old) (ring.old.cap - length ring.old.slots) }
    ensures rest { burst.new ≡ rest_of result burst.old }
    ensures ring { ring.new ≡ record ring.old { slots = ring.old.slots ++ map opened (take result burst.old.ops) } }
    ensures held { IsPermutation (D.held worker.old ++ numbered (ring.old.first + length ring.old.slots) (front result burst.old)) (D.held worker.new) }
    ensures stalls { D.stalls worker.old ≤ D.stalls worker.new }
    ensures sessions { D.sessions worker.new ≡ D.sessions worker.old }
    ensures follows { D.follows worker.old worker.new }
    ensures within { (r : ℕ) → D.room worker.old ≡ Some r → result ≤ r }
    ensures cause { (r : ℕ) → D.room worker.old ≡ Some r
        → result < min (min (offered max burst.old) (ring.old.cap - length ring.old.slots)) r → Rose (D.stalls worker.old) (D.stalls worker.new) }
    ensures room { D.room worker.new ≡ option_map (λ r. r - result) (D.room worker.old) }
    ensures log { D.log worker.new
        ≡ option_map (λ l. l ++ renumbered (number ring.old (length ring.old.slots)) (front_log result burst.old)) (D.log worker.old) }
    ensures taken { (D.stats worker.new).enqueued ≡ capped ((D.stats worker.old).enqueued + result) }
{
    let offered = max.min(burst.len()).min(ring.free());
    let was = Snapshot::of(&*burst);
    let before = Snapshot::of(&*ring);
    number_front(ring, burst, offered);
    let n = worker.enqueue_burst(burst, offered);
    restore_front(ring, burst, &was, &before, n, offered - n);
    n
}
