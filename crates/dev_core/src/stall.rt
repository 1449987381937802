//! A device that moves fewer operations than it could.
ghost use Rattle.std.specs.Prelude.{◌≡◌, ◌+◌, ◌<◌, ◌↔◌, [], length, option_map, OnOk, OnErr, IsErrOf};
ghost use Rattle.std.specs.Arc.{arc_value};
ghost use Rattle.crypto_model.specs.Counts.{capped};
ghost use Rattle.dev_core.specs.declared.driver.SetUpRefused.TheVariants.{BadDepth, Busy};
ghost use Rattle.dev_core.specs.SetUp.{IsDepth};
ghost use Rattle.dev_core.specs.Stats.{no_stats};

use crate::limits::LimitedCalls;
use crate::over::{Over, dequeue_upto, enqueue_upto, stalls_of};
use crate::{Device, Driver, Kind, Limits, SetUpRefused, Stats};
use crypto_op::OpBurst;
use std::alloc::Global;
use std::sync::Arc;
use sym_session::SessionTable;

/// A device over another, with a limit for each call of the one kind and of the other. Where a limit
/// cuts the number that the call could move, the device stalls.
#[derive(Drop)]
pub struct StallDriver<D> {
    over: Over<D>,
    enqueues: LimitedCalls,
    dequeues: LimitedCalls,
}

impl<D> StallDriver<D> {
    ghost use Rattle.dev_core.specs.Stall.{inner_of, enqueues_of, dequeues_of, stall_cuts, stall_stats};

    /// Over this device, with no call counted yet.
    pub fn new(inner: D, enqueue: Limits, dequeue: Limits) -> StallDriver<D>
        ensures inner { inner_of result ≡ inner }
        ensures enqueues { enqueues_of result ≡ record { limits = enqueue; calls = 0 } }
        ensures dequeues { dequeues_of result ≡ record { limits = dequeue; calls = 0 } }
        ensures cuts { stall_cuts result ≡ 0 }
        ensures stats { stall_stats result ≡ no_stats }
    {
        StallDriver {
            over: Over::new(inner),
            enqueues: LimitedCalls::new(enqueue),
            dequeues: LimitedCalls::new(dequeue),
        }
    }

    /// The device below.
    pub fn inner(&self) -> &D
        ensures { result.now ≡ inner_of self.now }
    {
        &self.over.inner
    }

    /// Hands the device below back.
    pub fn into_inner(self) -> D
        ensures { result ≡ inner_of self }
    {
        let StallDriver {
            over,
            enqueues: _,
            dequeues: _,
        } = self;
        over.into_inner()
    }
}

impl<C, D: Device<C>> Driver<C> for StallDriver<D> {
    ghost use Rattle.dev_core.specs.Stall.{StallDoes, inner_of, stall_cuts, stall_stats};

    ghost held = { λ d. D.held (inner_of d) };

    ghost room = { λ d. D.room (inner_of d) };

    ghost admits = { λ d lens. D.admits (inner_of d) lens };

    ghost stalls = { λ d. capped (D.stalls (inner_of d) + stall_cuts d) };

    ghost sessions = { λ d. D.sessions (inner_of d) };

    ghost stats = { stall_stats };

    ghost log = { λ d. D.log (inner_of d) };

    ghost ordered = { λ d. D.ordered (inner_of d) };

    ghost follows = { λ d e. D.follows (inner_of d) (inner_of e) };

    ghost does = { λ d c e. StallDoes D.Driver d c e };

    ghost room_admits = { λ d r ls e. D.room_admits (inner_of d) r ls e };

    ghost keeps_order = { λ d e p o. D.keeps_order (inner_of d) (inner_of e) p o };

    ghost follows_itself = { λ d. D.follows_itself (inner_of d) };

    ghost follows_on = { λ d e f p q. D.follows_on (inner_of d) (inner_of e) (inner_of f) p q };

    fn enqueue_burst(&mut self, burst: &mut OpBurst<C>, max: usize) -> usize {
        let most = self.enqueues.next(max);
        enqueue_upto(&mut self.over, burst, max, most)
    }

    fn dequeue_burst(&mut self, out: &mut OpBurst<C>, max: usize) -> usize {
        let most = self.dequeues.next(max);
        dequeue_upto(&mut self.over, out, max, most)
    }

    fn held(&self) -> usize {
        self.over.inner.held()
    }

    fn stalls(&self) -> u64 {
        stalls_of(&self.over)
    }

    fn stats(&self) -> Stats {
        self.over.stats
    }

    fn sessions(&self) -> &SessionTable {
        self.over.inner.sessions()
    }
}

impl<C, D: Device<C>> Device<C> for StallDriver<D> {
    ghost use Rattle.dev_core.specs.Stall.{inner_of, enqueues_of, dequeues_of, stall_cuts, stall_stats};

    ghost limit = { λ d. D.limit (inner_of d) };

    ghost room_told = { λ d. D.room_told (inner_of d) };

    ghost keeps_depth = { λ d e p. D.keeps_depth (inner_of d) (inner_of e) p };

    ghost within_depth = { λ d. D.within_depth (inner_of d) };

    /// Sets the inner device up. It goes on counting calls where it was.
    fn set_up(
        &mut self,
        alloc: Global,
        kind: Kind,
        sessions: Arc<SessionTable>,
        depth: usize,
    ) -> Result<(), SetUpRefused>
        ensures bad_depth { IsErrOf result BadDepth ↔ ¬ (IsDepth depth) }
        ensures busy { IsErrOf result Busy ↔ IsDepth depth × (0 < length (D.held (inner_of self.old))) }
        ensures refused { OnErr result (self.new ≡ self.old) }
        ensures sessions { OnOk result (D.sessions (inner_of self.new) ≡ arc_value sessions) }
        ensures depth { OnOk result (D.limit (inner_of self.new) ≡ depth) }
        ensures held { OnOk result (D.held (inner_of self.new) ≡ []) }
        ensures stats { OnOk result (stall_stats self.new ≡ no_stats) }
        ensures log { OnOk result (D.log (inner_of self.new) ≡ option_map (λ l. []) (D.log (inner_of self.old))) }
        ensures stalls { capped (D.stalls (inner_of self.new) + stall_cuts self.new) ≡ capped (D.stalls (inner_of self.old) + stall_cuts self.old) }

        // The calls go on being counted where they were.
        ensures enqueues { enqueues_of self.new ≡ enqueues_of self.old }
        ensures dequeues { dequeues_of self.new ≡ dequeues_of self.old }
        ensures cuts { stall_cuts self.new ≡ stall_cuts self.old }
        ensures inner_stalls { D.stalls (inner_of self.new) ≡ D.stalls (inner_of self.old) }
        ensures inner_stats { OnOk result (D.stats (inner_of self.new) ≡ no_stats) }
    {
        self.over.inner.set_up(alloc, kind, sessions, depth)?;
        self.over.stats = Stats::new();
        Ok(())
    }

    fn depth(&self) -> usize {
        self.over.inner.depth()
    }
}
