//! Answers become events.
ghost use Rattle.std.specs.Prelude.{◌≡◌, ◌+◌, ◌≤◌, [], length, map};
ghost use Rattle.dev_core.specs.Burst.{with_ops};
ghost use Rattle.event_adapter.specs.Source.{event_of};

use crate::{Event, EventBurst, EventKind};
use crypto_op::OpBurst;

/// Moves the operations of a burst to the end of `out`, each as an event of this kind.
pub(crate) fn join<C>(kind: EventKind, id: u8, ops: &mut OpBurst<C>, out: &mut EventBurst<C>)
    requires room { length out.old.ops + length ops.old.ops ≤ out.old.cap }
    ensures ops { ops.new ≡ record ops.old { ops = [] } }
    ensures out { out.new ≡ with_ops (map (event_of kind id) ops.old.ops) out.old }
{
    for _i in 0..ops.len() {
        match ops.pop() {
            Some(op) => out.push(Event { kind, qp: id, op }),
            None => unreachable!(),
        }
    }
}
