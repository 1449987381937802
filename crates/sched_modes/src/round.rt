//! Bursts that are dealt to the workers in turn.
ghost use Rattle.std.specs.Prelude.{◌≡◌, ◌<◌};
ghost use Rattle.sched_modes.specs.Crew.{turned};

use crate::Pool;
use crypto_op::OpBurst;
use dev_core::{Driver, Stats};
use sym_session::SessionTable;

/// Offers each burst to the worker whose turn it is, in one call. What that doesn't take stays with the caller.
/// The turn goes to the next worker behind each burst that isn't empty.
#[derive(Drop)]
pub struct RoundRobin<C, D: Driver<C>> {
    pub(crate) pool: Pool<C, D>,
    pub(crate) turn: usize,
    ghost within: { turn < pool.workers },
}

// Whose turn it is behind a burst of so many operations.
fn next_turn(turn: usize, workers: usize, offered: usize) -> usize
    requires { turn < workers }
    ensures turn { result ≡ turned workers turn offered }
    ensures within { result < workers }
{
    if offered == 0 {
        turn
    } else if turn + 1 < workers {
        turn + 1
    } else {
        0
    }
}

impl<C: Drop, D: Driver<C>> RoundRobin<C, D> {
    pub(crate) fn new(pool: Pool<C, D>) -> RoundRobin<C, D>
        ensures { (result.pool ≡ pool) × (result.turn ≡ 0) }
    {
        RoundRobin { pool, turn: 0 }
    }

    pub(crate) fn into_pool(self) -> Pool<C, D>
        ensures { result ≡ self.pool }
    {
        self.pool
    }
}

impl<C: Drop, D: Driver<C>> Driver<C> for RoundRobin<C, D> {
    ghost use Rattle.std.specs.Prelude.{None};
    ghost use Rattle.std.specs.Arc.{arc_value};
    ghost use Rattle.sched_core.specs.Pending.{InOrder};
    ghost use Rattle.sched_modes.specs.Admits.{round_admits};
    ghost use Rattle.sched_modes.specs.Crew.{Does, RoundOffers};
    ghost use Rattle.sched_modes.specs.Laws.{follows_same, follows_two, order_kept};
    ghost use Rattle.sched_modes.specs.Pool.{Follows, crew, pending_in, stalls_in};

    ghost held = { λ r. pending_in r.pool };

    ghost room = { λ r. None };

    ghost admits = { λ r lens. round_admits (crew r.turn r.pool) lens };

    ghost stalls = { λ r. stalls_in r.pool };

    ghost sessions = { λ r. arc_value r.pool.sessions };

    ghost stats = { λ r. r.pool.stats };

    ghost log = { λ r. None };

    ghost ordered = { λ r. InOrder r.pool.ring };

    ghost follows = { λ r s. Follows r.pool s.pool };

    ghost does = { λ r c s. Does RoundOffers (crew r.turn r.pool) c (crew s.turn s.pool) };

    ghost room_admits = { λ r n ls e. Prim.cc };

    ghost keeps_order = { λ r s p o. order_kept r.pool.ring s.pool.ring p.went.cap o };

    ghost follows_itself = { λ r. follows_same D.follows_itself r.pool };

    ghost follows_on = { λ q r s x y. follows_two D.follows_on q.pool r.pool s.pool x y };

    fn enqueue_burst(&mut self, burst: &mut OpBurst<C>, max: usize) -> usize {
        let offered = max.min(burst.len());
        let n = self.pool.offer_to(self.turn, burst, max);
        self.pool.stats.count_enqueue(offered, n);
        self.turn = next_turn(self.turn, self.pool.workers, offered);
        n
    }

    fn dequeue_burst(&mut self, out: &mut OpBurst<C>, max: usize) -> usize {
        self.pool.pull(out, max).n
    }

    fn held(&self) -> usize {
        self.pool.pending()
    }

    fn stalls(&self) -> u64 {
        self.pool.stalls()
    }

    fn stats(&self) -> Stats {
        self.pool.stats
    }

    fn sessions(&self) -> &SessionTable {
        &self.pool.sessions
    }
}
