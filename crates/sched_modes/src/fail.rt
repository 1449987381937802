//! Bursts for one worker, with a second for what the first doesn't take.
ghost use Rattle.std.specs.Prelude.{◌≡◌};

use crate::Pool;
use crypto_op::OpBurst;
use dev_core::{Driver, Stats};
use sym_session::SessionTable;

/// Offers each burst to worker 0, and what that doesn't take to worker 1, in at most one call of each. What
/// neither takes stays with the caller.
#[derive(Drop)]
pub struct FailOver<C, D: Driver<C>> {
    pub(crate) pool: Pool<C, D>,
    ghost two: { pool.workers ≡ 2 },
}

impl<C: Drop, D: Driver<C>> FailOver<C, D> {
    pub(crate) fn new(pool: Pool<C, D>) -> FailOver<C, D>
        requires { pool.workers ≡ 2 }
        ensures { result.pool ≡ pool }
    {
        FailOver { pool }
    }

    pub(crate) fn into_pool(self) -> Pool<C, D>
        ensures pool { result ≡ self.pool }
        ensures workers { result.workers ≡ 2 }
    {
        self.pool
    }
}

impl<C: Drop, D: Driver<C>> Driver<C> for FailOver<C, D> {
    ghost use Rattle.std.specs.Prelude.{None};
    ghost use Rattle.std.specs.Arc.{arc_value};
    ghost use Rattle.sched_core.specs.Pending.{InOrder};
    ghost use Rattle.sched_modes.specs.Admits.{fail_admits};
    ghost use Rattle.sched_modes.specs.Crew.{Does, FailOffers};
    ghost use Rattle.sched_modes.specs.Laws.{follows_same, follows_two, order_kept};
    ghost use Rattle.sched_modes.specs.Pool.{Follows, crew, pending_in, stalls_in};

    ghost held = { λ r. pending_in r.pool };

    ghost room = { λ r. None };

    ghost admits = { λ r lens. fail_admits (crew 0 r.pool) lens };

    ghost stalls = { λ r. stalls_in r.pool };

    ghost sessions = { λ r. arc_value r.pool.sessions };

    ghost stats = { λ r. r.pool.stats };

    ghost log = { λ r. None };

    ghost ordered = { λ r. InOrder r.pool.ring };

    ghost follows = { λ r s. Follows r.pool s.pool };

    ghost does = { λ r c s. Does FailOffers (crew 0 r.pool) c (crew 0 s.pool) };

    ghost room_admits = { λ r n ls e. Prim.cc };

    ghost keeps_order = { λ r s p o. order_kept r.pool.ring s.pool.ring p.went.cap o };

    ghost follows_itself = { λ r. follows_same D.follows_itself r.pool };

    ghost follows_on = { λ q r s x y. follows_two D.follows_on q.pool r.pool s.pool x y };

    fn enqueue_burst(&mut self, burst: &mut OpBurst<C>, max: usize) -> usize {
        let offered = max.min(burst.len());
        let first = self.pool.offer_to(0, burst, max);
        let second = self.pool.offer_to(1, burst, max - first);
        self.pool.stats.count_enqueue(offered, first + second);
        first + second
    }

    fn dequeue_burst(&mut self, out: &mut OpBurst<C>, max: usize) -> usize {
        self.pool.pull(out, max).n
    }

    fn held(&self) -> usize {
        self.pool.pending()
    }

    fn stalls(&self) -> u64 {
        self.pool.stalls()
    }

    fn stats(&self) -> Stats {
        self.pool.stats
    }

    fn sessions(&self) -> &SessionTable {
        &self.pool.sessions
    }
}
