//! Operations that are answered where they lie, and handed out.
ghost use Rattle.std.specs.Prelude.{◌≡◌, ◌+◌, ◌<◌, ◌≤◌, length, map, take, drop};
ghost use Rattle.std.specs.List.{All};
ghost use Rattle.std.specs.VecDeque.{deque_len, deque_capacity};
ghost use Rattle.crypto_op.specs.Op.{IsFresh, IsDone, entry_of};
ghost use Rattle.dev_core.specs.Burst.{room_of, added, with_ops};

use crate::process;
use crypto_op::{Op, OpBurst};
use std::collections::VecDeque;
use sym_session::SessionTable;

// Answers the first `n` operations of a queue.
fn answer_front<C>(table: &SessionTable, queue: &mut VecDeque<Op<C>>, n: usize)
    requires enough { n ≤ deque_len queue.old }
    requires fresh { All IsFresh queue.old.items }
    ensures entries { map entry_of (take n queue.new.items) ≡ map entry_of (take n queue.old.items) }
    ensures done { All (IsDone table.now) (take n queue.new.items) }
    ensures rest { drop n queue.new.items ≡ drop n queue.old.items }
    ensures len { deque_len queue.new ≡ deque_len queue.old }
    ensures capacity { deque_capacity queue.new ≡ deque_capacity queue.old }
{
    for i in 0..n {
        let op = &mut queue[i];
        process(table, op);
    }
}

/// Moves the first `n` operations of a queue behind those of a burst, each answered.
pub(crate) fn give_out<C>(
    table: &SessionTable,
    queue: &mut VecDeque<Op<C>>,
    out: &mut OpBurst<C>,
    n: usize,
)
    requires enough { n ≤ deque_len queue.old }
    requires room { n ≤ room_of out.old }
    requires fresh { All IsFresh queue.old.items }
    ensures rest { queue.new.items ≡ drop n queue.old.items }
    ensures capacity { deque_capacity queue.new ≡ deque_capacity queue.old }
    ensures kept { out.new ≡ with_ops (added out.old out.new) out.old }
    ensures count { length out.new.ops ≡ length out.old.ops + n }
    ensures entries { map entry_of (added out.old out.new) ≡ map entry_of (take n queue.old.items) }
    ensures done { All (IsDone table.now) (added out.old out.new) }
{
    answer_front(table, queue, n);
    out.fill_from(queue, n);
}
