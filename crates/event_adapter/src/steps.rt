//! The steps that go along all queue pairs.
ghost use Rattle.std.specs.Prelude.{◌≡◌, ◌==◌, ◌+◌, ◌<◌, ◌≤◌, [], length, List, IfSome, IsPermutation, is_some, slice_index_or};
ghost use Rattle.std.specs.Vec.{vec_len, vec_capacity};
ghost use Rattle.std.specs.List.{flat_map};
ghost use Rattle.crypto_op.specs.declared.op.Op.{Op};
ghost use Rattle.dev_core.specs.Burst.{added, room_of, with_ops};
ghost use Rattle.event_adapter.specs.declared.queue_pair.QueuePair.{QueuePair};
ghost use Rattle.event_adapter.specs.Inside.{bag_of, ids, inside, is_known};
ghost use Rattle.event_adapter.specs.Steps.{Along, Completed, Offered};

use crate::queue_pair::QueuePair;
use crate::{EventBurst, EventKind};
use crypto_op::OpBurst;
use dev_core::Driver;

/// What the devices give goes to the end of `out`, in the order of the queue pairs.
pub(crate) fn complete_all<C, D: Driver<C>>(
    kind: EventKind,
    pairs: &mut Vec<QueuePair<C, D>>,
    out: &mut EventBurst<C>,
    scratch: &mut OpBurst<C>,
) -> usize
    requires empty { scratch.old.ops ≡ [] }
    requires fits { out.old.cap ≤ scratch.old.cap }
    ensures kept { out.new ≡ with_ops (added out.old out.new) out.old }
    ensures count { length out.new.ops ≡ length out.old.ops + result }
    ensures scratch { scratch.new ≡ scratch.old }
    ensures len { vec_len pairs.new ≡ vec_len pairs.old }
    ensures capacity { vec_capacity pairs.new ≡ vec_capacity pairs.old }
    ensures ids { ids pairs.new.items ≡ ids pairs.old.items }
    ensures bag { IsPermutation (inside D.Driver pairs.old.items out.old.ops) (inside D.Driver pairs.new.items out.new.ops) }
    ensures step { Along (Completed D.Driver kind) (room_of out.old) pairs.old.items pairs.new.items (added out.old out.new) }
{
    let before = out.len();
    for i in 0..pairs.len() {
        let pair = &mut pairs[i];
        pair.complete(kind, out, scratch);
    }
    out.len() - before
}

/// Offers each device what waits for it.
pub(crate) fn offer_all<C, D: Driver<C>>(pairs: &mut Vec<QueuePair<C, D>>) -> usize
    requires few { vec_len pairs.old ≤ 8 }
    ensures within { result ≤ 256 }
    ensures len { vec_len pairs.new ≡ vec_len pairs.old }
    ensures capacity { vec_capacity pairs.new ≡ vec_capacity pairs.old }
    ensures ids { ids pairs.new.items ≡ ids pairs.old.items }
    ensures bag { IsPermutation (flat_map (bag_of D.Driver) pairs.old.items) (flat_map (bag_of D.Driver) pairs.new.items) }
    ensures step { (ops : List (Op C)) × Along (Offered D.Driver) 0 pairs.old.items pairs.new.items ops × (length ops ≡ result) }
{
    let mut n = 0;
    for i in 0..pairs.len() {
        let pair = &mut pairs[i];
        n += pair.offer();
    }
    n
}

/// Where the queue pair with this id stands.
pub(crate) fn find<C, D>(pairs: &Vec<QueuePair<C, D>>, id: u8) -> Option<usize>
    ensures found { IfSome result (λ k. (k < vec_len pairs.now) × ((d : QueuePair C D) → (slice_index_or pairs.now.items k d).id ≡ id)) }
    ensures known { is_some result ≡ is_known pairs.now.items id }
{
    for i in 0..pairs.len() {
        if pairs[i].id == id {
            return Some(i);
        }
    }
    None
}
