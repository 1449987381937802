//! A scheduler that runs.
use crate::{FailOver, Got, PacketSize, RoundRobin};
use crypto_op::OpBurst;
use dev_core::{Driver, Stats};
use sched_core::{Mode, Scheduler};
use sym_session::SessionTable;

/// A scheduler that runs, in one of its modes. It is a queue pair itself, over its workers.
#[derive(Drop)]
pub enum Running<C, D: Driver<C>> {
    Round(RoundRobin<C, D>),
    Size(PacketSize<C, D>),
    Fail(FailOver<C, D>),
}

/// Operations are pending, so that the scheduler wasn't stopped. `n` is their number, or the last value of a
/// `usize` where they are more.
#[derive(Drop)]
pub struct Pending<C, D: Driver<C>> {
    pub n: usize,
    pub running: Running<C, D>,
}

impl<C: Drop, D: Driver<C>> Running<C, D> {
    ghost use Rattle.std.specs.Prelude.{◌≡◌, ◌+◌, ◌<◌, ◌≤◌, [], min, length, IfOk, IfErr};
    ghost use Rattle.std.specs.Arc.{arc_value};
    ghost use Rattle.std.specs.List.{All};
    ghost use Rattle.crypto_model.specs.Counts.{capped};
    ghost use Rattle.crypto_op.specs.Op.{IsDone};
    ghost use Rattle.dev_core.specs.Burst.{room_of, added, with_ops};
    ghost use Rattle.dev_core.specs.Stats.{after_dequeue};
    ghost use Rattle.sched_core.specs.Pending.{InOrder, IsRingSound, RingDone};
    ghost use Rattle.sched_core.specs.Stopped.{AreAlike};
    ghost use Rattle.sched_modes.specs.Crew.{DrawsFrom};
    ghost use Rattle.sched_modes.specs.Pool.{Follows};
    ghost use Rattle.sched_modes.specs.Running.{AreIdle, at_work, crew_of, mode_of, pending, pool_of, stopped_of};
    ghost use Rattle.sched_modes.specs.Workers.{CameInOrder, CameOut, FrontOpen, StopIs};

    /// Moves answered operations behind those of `out`, at most `max`, and says why no more came. With ordering
    /// on they come in the order in which they were accepted.
    pub fn pull(&mut self, out: &mut OpBurst<C>, max: usize) -> Got
        ensures within { result.n ≤ min max (room_of out.old) }
        ensures kept { out.new ≡ with_ops (added out.old out.new) out.old }
        ensures count { length out.new.ops ≡ length out.old.ops + result.n }
        ensures pending { CameOut (added out.old out.new) (pending self.old) (pending self.new) }
        ensures in_order { InOrder (pool_of self.old).ring → CameInOrder (added out.old out.new) (pending self.old) (pending self.new) }
        ensures done { All (IsDone (arc_value (pool_of self.old).sessions)) (added out.old out.new) }
        ensures stop { StopIs result.stop result.n (min max (room_of out.old)) (pending self.new) (at_work self.new) }
        ensures front { result.n < min max (room_of out.old) → 0 < length (at_work self.new) → FrontOpen (pool_of self.new).ring }
        ensures draws { DrawsFrom (crew_of self.old) (min max (room_of out.old)) result.n (crew_of self.new) }
        ensures mode { mode_of self.new ≡ mode_of self.old }
        ensures follows { Follows (pool_of self.old) (pool_of self.new) }
        ensures stats { (pool_of self.new).stats ≡ after_dequeue (min max (room_of out.old)) result.n (pool_of self.old).stats }
    {
        match self {
            Running::Round(t) => t.pool.pull(out, max),
            Running::Size(t) => t.pool.pull(out, max),
            Running::Fail(t) => t.pool.pull(out, max),
        }
    }

    /// How many operations are pending, or the last value of a `usize` where they are more.
    pub fn pending(&self) -> usize
        ensures count { result ≡ capped (length (pending self.now)) }
        // With ordering on each number of the ring is settled, or is held by one worker, once, and the workers
        // hold nothing else. With ordering off what they hold is pending.
        ensures numbers { IsRingSound (pool_of self.now).ring (at_work self.now) }
        ensures answers { RingDone (arc_value (pool_of self.now).sessions) (pool_of self.now).ring }
    {
        match self {
            Running::Round(t) => t.pool.pending(),
            Running::Size(t) => t.pool.pending(),
            Running::Fail(t) => t.pool.pending(),
        }
    }

    /// Stops the scheduler where nothing is pending.
    pub fn stop(self) -> Result<Scheduler<D>, Pending<C, D>>
        ensures stopped { IfOk result (λ s. (pending self ≡ []) × (s ≡ stopped_of self)) }
        ensures alike { IfOk result (λ s. AreAlike D.sessions s) }
        ensures idle { IfOk result (λ s. AreIdle D.Driver s.workers s.devs) }
        ensures refused { IfErr result (λ p. (0 < p.n) × (p.n ≡ capped (length (pending self))) × (p.running ≡ self)) }
    {
        let n = self.pending();
        if n == 0 {
            Ok(self.break_up())
        } else {
            Err(Pending { n, running: self })
        }
    }

    /// Gives the scheduler back whatever is pending. The devices keep what they hold, and the operations that
    /// lie in the ring are dropped.
    pub fn break_up(self) -> Scheduler<D>
        ensures stopped { result ≡ stopped_of self }
        ensures alike { AreAlike D.sessions result }
    {
        match self {
            Running::Round(t) => t.into_pool().break_up(Mode::RoundRobin),
            Running::Size(t) => t.into_pool().break_up(Mode::PacketSize),
            Running::Fail(t) => t.into_pool().break_up(Mode::FailOver),
        }
    }
}

impl<C: Drop, D: Driver<C>> Driver<C> for Running<C, D> {
    ghost use Rattle.std.specs.Prelude.{◌≡◌, None};
    ghost use Rattle.std.specs.Arc.{arc_value};
    ghost use Rattle.std.proofs.Common.{refl, ◌∙◌};
    ghost use Rattle.sched_core.specs.Pending.{InOrder};
    ghost use Rattle.sched_modes.specs.Laws.{follows_same, follows_two, order_kept};
    ghost use Rattle.sched_modes.specs.Pool.{Follows, stalls_in};
    ghost use Rattle.sched_modes.specs.Running.{DoesCall, admits_by, crew_of, mode_of, pending, pool_of};

    ghost held = { λ r. pending r };

    ghost room = { λ r. None };

    ghost admits = { λ r lens. admits_by (mode_of r) (pool_of r).threshold (crew_of r) lens };

    ghost stalls = { λ r. stalls_in (pool_of r) };

    ghost sessions = { λ r. arc_value (pool_of r).sessions };

    ghost stats = { λ r. (pool_of r).stats };

    ghost log = { λ r. None };

    ghost ordered = { λ r. InOrder (pool_of r).ring };

    ghost follows = { λ r s. (mode_of s ≡ mode_of r) × Follows (pool_of r) (pool_of s) };

    ghost does = { λ r c s. DoesCall r c s };

    ghost room_admits = { λ r n ls e. Prim.cc };

    ghost keeps_order = { λ r s p o. order_kept (pool_of r).ring (pool_of s).ring p.1.went.cap o };

    ghost follows_itself = { λ r. (refl, follows_same D.follows_itself (pool_of r)) };

    ghost follows_on = { λ q r s x y. (y.0 ∙ x.0, follows_two D.follows_on (pool_of q) (pool_of r) (pool_of s) x.1 y.1) };

    fn enqueue_burst(&mut self, burst: &mut OpBurst<C>, max: usize) -> usize {
        match self {
            Running::Round(t) => t.enqueue_burst(burst, max),
            Running::Size(t) => t.enqueue_burst(burst, max),
            Running::Fail(t) => t.enqueue_burst(burst, max),
        }
    }

    fn dequeue_burst(&mut self, out: &mut OpBurst<C>, max: usize) -> usize {
        match self {
            Running::Round(t) => t.dequeue_burst(out, max),
            Running::Size(t) => t.dequeue_burst(out, max),
            Running::Fail(t) => t.dequeue_burst(out, max),
        }
    }

    fn held(&self) -> usize {
        self.pending()
    }

    fn stalls(&self) -> u64 {
        match self {
            Running::Round(t) => t.stalls(),
            Running::Size(t) => t.stalls(),
            Running::Fail(t) => t.stalls(),
        }
    }

    fn stats(&self) -> Stats {
        match self {
            Running::Round(t) => t.stats(),
            Running::Size(t) => t.stats(),
            Running::Fail(t) => t.stats(),
        }
    }

    fn sessions(&self) -> &SessionTable {
        match self {
            Running::Round(t) => t.sessions(),
            Running::Size(t) => t.sessions(),
            Running::Fail(t) => t.sessions(),
        }
    }
}
