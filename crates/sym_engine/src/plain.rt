//! A device that answers in order.
ghost use Rattle.std.specs.Prelude.{◌≡◌, ◌-◌, ◌≤◌, min, length, map, None, Some, IfOk};
ghost use Rattle.std.specs.List.{All};
ghost use Rattle.std.proofs.Common.{refl, ◌∙◌, subst, sym};
ghost use Rattle.std.proofs.lemmas.List.{length-map};
ghost use Rattle.std.specs.VecDeque.{deque_len, deque_capacity};
ghost use Rattle.std.specs.Arc.{arc_value};
ghost use Rattle.crypto_op.specs.declared.burst.TheConstants.{MAX_OPS};
ghost use Rattle.crypto_op.specs.Op.{IsFresh, entry_of};

use crate::moves::give_out;
use crypto_model::OutOfMemory;
use crypto_op::{MAX_OPS, Op, OpBurst};
use dev_core::{Device, Driver, Kind, SetUpRefused, Stats};
use std::alloc::Global;
use std::collections::VecDeque;
use std::mem::replace;
use std::sync::Arc;
use sym_session::SessionTable;

/// A device that processes an operation when it is dequeued, returns operations in the order in which
/// they came, and never stalls.
#[derive(Drop)]
pub struct PlainDriver<C> {
    sessions: Arc<SessionTable>,
    depth: usize,
    queue: VecDeque<Op<C>>,
    stats: Stats,
    ghost fits: { (length queue.items ≤ depth) × (depth ≤ deque_capacity queue) × (depth ≤ MAX_OPS) },
    ghost fresh: { All IsFresh queue.items },
}

impl<C> PlainDriver<C> {
    ghost use Rattle.sym_engine.specs.Driver.{IsNew};

    pub fn new(alloc: Global) -> Result<PlainDriver<C>, OutOfMemory>
        ensures { IfOk result IsNew }
    {
        let sessions = SessionTable::new(alloc)?;
        Ok(PlainDriver {
            sessions: Arc::new(alloc, sessions)?,
            depth: 0,
            queue: VecDeque::new(alloc),
            stats: Stats::new(),
        })
    }
}

impl<C> Driver<C> for PlainDriver<C> {
    ghost use Rattle.sym_engine.specs.Driver.{held_of, depth_of, sessions_of, stats_of};

    ghost held = { held_of };

    ghost room = { λ d. Some (d.depth - length d.queue.items) };

    ghost admits = { λ d lens. Some (min (length lens) (d.depth - length d.queue.items)) };

    ghost stalls = { λ d. 0 };

    ghost sessions = { sessions_of };

    ghost stats = { stats_of };

    ghost log = { λ d. None };

    ghost ordered = { λ _. Unit {0} };

    ghost follows = { λ d e. depth_of e ≡ depth_of d };

    ghost room_admits = { λ d r ls e. Prim.cc };

    ghost keeps_order = { λ d e p o. o };

    ghost follows_itself = { λ d. refl };

    ghost follows_on = { λ d e f p q. q ∙ p };

    fn enqueue_burst(&mut self, burst: &mut OpBurst<C>, max: usize) -> usize {
        let offered = max.min(burst.len());
        let n = offered.min(self.depth - self.queue.len());
        burst.drain_to(&mut self.queue, n);
        self.stats.count_enqueue(offered, n);
        n
    }

    fn dequeue_burst(&mut self, out: &mut OpBurst<C>, max: usize) -> usize {
        let asked = max.min(out.room());
        let n = asked.min(self.queue.len());
        give_out(&self.sessions, &mut self.queue, out, n);
        self.stats.count_dequeue(asked, n);
        n
    }

    fn held(&self) -> usize {
        self.queue.len()
    }

    fn stalls(&self) -> u64 {
        0
    }

    fn stats(&self) -> Stats {
        self.stats
    }

    fn sessions(&self) -> &SessionTable {
        &self.sessions
    }
}

impl<C> Device<C> for PlainDriver<C> {
    ghost use Rattle.sym_engine.specs.Driver.{depth_of};

    ghost limit = { depth_of };

    ghost room_told = { λ d. Prim.simp length-map };

    ghost keeps_depth = { λ d e p. p };

    ghost within_depth = { λ d. subst (λ n. n ≤ depth_of d) (sym (length-map d.queue.items entry_of)) d.fits.0 };

    fn set_up(
        &mut self,
        alloc: Global,
        _kind: Kind,
        sessions: Arc<SessionTable>,
        depth: usize,
    ) -> Result<(), SetUpRefused> {
        if depth == 0 || depth > MAX_OPS {
            return Err(SetUpRefused::BadDepth);
        }
        if !self.queue.is_empty() {
            return Err(SetUpRefused::Busy);
        }
        let queue = VecDeque::with_capacity(alloc, depth)?;
        replace(&mut self.queue, queue).destroy_empty();
        self.sessions = sessions;
        self.depth = depth;
        self.stats = Stats::new();
        Ok(())
    }

    fn depth(&self) -> usize {
        self.depth
    }
}
