//! Operations that come back from workers and go into the ring.
ghost use Rattle.std.specs.Prelude.{◌≡◌, ◌++◌, [], List, Some, length, map};
ghost use Rattle.std.specs.List.{All};
ghost use Rattle.crypto_model.specs.Process.{Transform};
ghost use Rattle.crypto_op.specs.Op.{Entry, IsDone, entry_of};
ghost use Rattle.sched_core.specs.Pending.{ComesBack, IsRingSound, SlotDone};

use crate::OrderRing;
use crypto_op::OpBurst;

/// Settles each operation of a burst.
pub fn settle_all<C: Drop>(ring: &mut OrderRing<C>, burst: &mut OpBurst<C>)
    requires { (held : List (Entry C)) × IsRingSound (Some ring.old) (held ++ map entry_of burst.old.ops) }
    ensures back { ComesBack (map entry_of burst.old.ops) ring.old ring.new }
    ensures done { (sessions : List (List Transform))
        → All (SlotDone sessions) ring.old.slots → All (IsDone sessions) burst.old.ops → All (SlotDone sessions) ring.new.slots }
    ensures ring { (ring.new.cap ≡ ring.old.cap) × (ring.new.first ≡ ring.old.first) × (length ring.new.slots ≡ length ring.old.slots) }
    ensures burst { burst.new ≡ record burst.old { ops = [] } }
{
    for _i in 0..burst.len() {
        match burst.pop() {
            Some(op) => ring.settle(op),
            None => unreachable!(),
        }
    }
}
