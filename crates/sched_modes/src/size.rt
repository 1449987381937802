//! Long data for one worker, and short data for another.
ghost use Rattle.std.specs.Prelude.{◌≡◌, ℕ, ◌+◌, ◌<◌, ◌≤◌, length, take};
ghost use Rattle.std.specs.List.{All};
ghost use Rattle.crypto_op.specs.Op.{IsFresh};
ghost use Rattle.dev_core.specs.Burst.{offered};
ghost use Rattle.sched_modes.specs.Crew.{free, size_worker};
ghost use Rattle.sched_modes.specs.Sizing.{DealtBySize, HasStalledFor};
ghost use Rattle.sched_modes.specs.Workers.{places};

use crate::Pool;
use crypto_op::OpBurst;
use dev_core::{Driver, Stats};
use sym_session::SessionTable;

/// Offers an operation whose data length is at or above the threshold to worker 0, the primary, and any other
/// to worker 1. A call ends at the first operation that its worker doesn't take.
#[derive(Drop)]
pub struct PacketSize<C, D: Driver<C>> {
    pub(crate) pool: Pool<C, D>,
    ghost two: { pool.workers ≡ 2 },
}

fn worker_for(threshold: u32, data_len: u32) -> usize
    ensures worker { result ≡ size_worker threshold data_len }
    ensures two { result < 2 }
{
    if data_len < threshold { 1 } else { 0 }
}

// Offers the burst's first operation to the worker of its size, and answers how many were taken.
fn offer_next<C: Drop, D: Driver<C>>(pool: &mut Pool<C, D>, burst: &mut OpBurst<C>) -> usize
    requires two { pool.old.workers ≡ 2 }
    requires some { 0 < length burst.old.ops }
    requires fresh { All IsFresh (take 1 burst.old.ops) }
    ensures one { result ≤ free (places pool.old.ring) 1 }
    ensures dealt { (old : _) (all : _) (n : ℕ) → n ≤ length all.ops
        → DealtBySize old all n pool.old burst.old → DealtBySize old all (n + result) pool.new burst.new }
    ensures cause { result ≡ 0 → 0 < free (places pool.old.ring) 1 → HasStalledFor 0 burst.old pool.old pool.new }
{
    let worker = worker_for(pool.threshold, burst.get(0).data_len());
    pool.offer_to(worker, burst, 1)
}

// Each operation goes to the worker of its size, up to the first that isn't taken.
fn deal<C: Drop, D: Driver<C>>(pool: &mut Pool<C, D>, burst: &mut OpBurst<C>, max: usize) -> usize
    requires two { pool.old.workers ≡ 2 }
    requires fresh { All IsFresh (take max burst.old.ops) }
    ensures offered { result ≤ free (places pool.old.ring) (offered max burst.old) }
    ensures dealt { DealtBySize pool.old burst.old result pool.new burst.new }
    ensures cause { result < free (places pool.old.ring) (offered max burst.old) → HasStalledFor result burst.old pool.old pool.new }
{
    let offered = max.min(burst.len());
    let mut n = 0;
    for _i in 0..offered {
        if offer_next(pool, burst) == 0 {
            break;
        }
        n += 1;
    }
    n
}

impl<C: Drop, D: Driver<C>> PacketSize<C, D> {
    pub(crate) fn new(pool: Pool<C, D>) -> PacketSize<C, D>
        requires { pool.workers ≡ 2 }
        ensures { result.pool ≡ pool }
    {
        PacketSize { pool }
    }

    pub(crate) fn into_pool(self) -> Pool<C, D>
        ensures pool { result ≡ self.pool }
        ensures workers { result.workers ≡ 2 }
    {
        self.pool
    }
}

impl<C: Drop, D: Driver<C>> Driver<C> for PacketSize<C, D> {
    ghost use Rattle.std.specs.Prelude.{None};
    ghost use Rattle.std.specs.Arc.{arc_value};
    ghost use Rattle.sched_core.specs.Pending.{InOrder};
    ghost use Rattle.sched_modes.specs.Admits.{size_admits};
    ghost use Rattle.sched_modes.specs.Crew.{Does, SizeOffers};
    ghost use Rattle.sched_modes.specs.Laws.{follows_same, follows_two, order_kept};
    ghost use Rattle.sched_modes.specs.Pool.{Follows, crew, pending_in, stalls_in};

    ghost held = { λ r. pending_in r.pool };

    ghost room = { λ r. None };

    ghost admits = { λ r lens. size_admits r.pool.threshold (crew 0 r.pool) lens };

    ghost stalls = { λ r. stalls_in r.pool };

    ghost sessions = { λ r. arc_value r.pool.sessions };

    ghost stats = { λ r. r.pool.stats };

    ghost log = { λ r. None };

    ghost ordered = { λ r. InOrder r.pool.ring };

    ghost follows = { λ r s. Follows r.pool s.pool };

    ghost does = { λ r c s. Does (SizeOffers r.pool.threshold) (crew 0 r.pool) c (crew 0 s.pool) };

    ghost room_admits = { λ r n ls e. Prim.cc };

    ghost keeps_order = { λ r s p o. order_kept r.pool.ring s.pool.ring p.went.cap o };

    ghost follows_itself = { λ r. follows_same D.follows_itself r.pool };

    ghost follows_on = { λ q r s x y. follows_two D.follows_on q.pool r.pool s.pool x y };

    fn enqueue_burst(&mut self, burst: &mut OpBurst<C>, max: usize) -> usize {
        let offered = max.min(burst.len());
        let n = deal(&mut self.pool, burst, max);
        self.pool.stats.count_enqueue(offered, n);
        n
    }

    fn dequeue_burst(&mut self, out: &mut OpBurst<C>, max: usize) -> usize {
        self.pool.pull(out, max).n
    }

    fn held(&self) -> usize {
        self.pool.pending()
    }

    fn stalls(&self) -> u64 {
        self.pool.stalls()
    }

    fn stats(&self) -> Stats {
        self.pool.stats
    }

    fn sessions(&self) -> &SessionTable {
        &self.pool.sessions
    }
}
