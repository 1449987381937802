//! A queue pair of an adapter.
ghost use Rattle.std.specs.Prelude.{◌≡◌, ◌+◌, ◌<◌, ◌≤◌, [], ◌∷◌, length, take};
ghost use Rattle.std.specs.List.{All};
ghost use Rattle.crypto_op.specs.Op.{IsFresh};

use crate::join::join;
use crate::{EventBurst, EventKind};
use crypto_op::{Op, OpBurst};
use dev_core::Driver;

/// How many operations an in buffer has room for, and how many events are taken at once.
pub(crate) const WAITING: usize = 32;

/// A device under an id, and the in buffer of the operations that wait for it.
#[derive(Drop)]
pub struct QueuePair<C, D> {
    pub(crate) id: u8,
    pub(crate) waiting: OpBurst<C>,
    pub(crate) dev: D,
    ghost cap: { waiting.cap ≡ 32 },
    ghost within: { length waiting.ops ≤ 32 },
    ghost fresh: { All IsFresh waiting.ops },
}

impl<C, D: Driver<C>> QueuePair<C, D> {
    ghost use Rattle.dev_core.specs.Burst.{added, room_of, rest_of, with_ops};
    ghost use Rattle.event_adapter.specs.Steps.{Completed, Offered, Submitted};

    /// What the device gives, as far as `out` has room, goes to its end as events. The scratch burst is empty before and after.
    pub(crate) fn complete(
        &mut self,
        kind: EventKind,
        out: &mut EventBurst<C>,
        scratch: &mut OpBurst<C>,
    ) -> usize
        requires empty { scratch.old.ops ≡ [] }
        requires fits { out.old.cap ≤ scratch.old.cap }
        ensures kept { out.new ≡ with_ops (added out.old out.new) out.old }
        ensures count { length out.new.ops ≡ length out.old.ops + result }
        ensures scratch { scratch.new ≡ scratch.old }
        ensures step { Completed D.Driver kind (room_of out.old) self.old self.new (added out.old out.new) }
    {
        let room = out.room();
        let n = self.dev.dequeue_burst(scratch, room);
        join(kind, self.id, scratch, out);
        n
    }

    /// Offers the device what waits.
    pub(crate) fn offer(&mut self) -> usize
        ensures within { result ≤ length self.old.waiting.ops }
        ensures few { result ≤ 32 }
        ensures step { Offered D.Driver 0 self.old self.new (take result self.old.waiting.ops) }
    {
        let n = self.waiting.len();
        if n == 0 {
            return 0;
        }
        self.dev.enqueue_burst(&mut self.waiting, n)
    }

    /// Offers the device a burst.
    pub(crate) fn submit(&mut self, burst: &mut OpBurst<C>) -> usize
        requires fresh { All IsFresh burst.old.ops }
        ensures rest { burst.new ≡ rest_of result burst.old }
        ensures step { Submitted D.Driver burst.old result self.old self.new }
    {
        let n = burst.len();
        self.dev.enqueue_burst(burst, n)
    }

    /// Puts an operation last of those that wait.
    pub(crate) fn put(&mut self, op: Op<C>)
        requires room { length self.old.waiting.ops < 32 }
        requires fresh { IsFresh op }
        ensures id { self.new.id ≡ self.old.id }
        ensures dev { self.new.dev ≡ self.old.dev }
        ensures waiting { self.new.waiting ≡ with_ops (op ∷ []) self.old.waiting }
    {
        self.waiting.push(op);
    }
}
