//! Workers that stand together, with an order ring or without.
ghost use Rattle.std.specs.Prelude.{◌≡◌, ◌<◌, ◌≤◌, [], vec_len};
ghost use Rattle.std.specs.Arc.{arc_value};
ghost use Rattle.sched_core.specs.Pending.{IsRingSound, RingDone};
ghost use Rattle.sched_core.specs.Stopped.{EachAlike};
ghost use Rattle.sched_modes.specs.Workers.{together, RingFits, pool_props, stop_after};

use crate::draw::{draw, held_by};
use crate::offer::offer;
use crate::{Got, Stop};
use crypto_op::{MAX_OPS, OpBurst};
use dev_core::{Driver, Stats};
use sched_core::{Mode, OrderRing, Parts, Scheduler};
use std::sync::Arc;
use sym_session::SessionTable;

/// What the modes have in common. The first `workers` devices are the workers. With a ring, an operation that
/// a worker holds has its ring's number as pos, and what comes back from workers waits in the ring for its
/// turn; it goes there through `scratch`, which is empty between calls.
#[derive(Drop)]
pub struct Pool<C, D: Driver<C>> {
    pub(crate) devs: Vec<D>,
    pub(crate) workers: usize,
    pub(crate) threshold: u32,
    pub(crate) ring: Option<OrderRing<C>>,
    pub(crate) scratch: OpBurst<C>,
    pub(crate) sessions: Arc<SessionTable>,
    pub(crate) stats: Stats,
    ghost sizes: { (0 < workers) × (workers ≤ vec_len devs) × (workers ≤ 8) },
    ghost alike: { EachAlike D.sessions (arc_value sessions) workers devs.items },
    ghost sound: { IsRingSound ring (together D.Driver workers devs.items) } by { Prim.hlevel pool_props },
    ghost answered: { RingDone (arc_value sessions) ring } by { Prim.hlevel pool_props },
    ghost empty: { scratch.ops ≡ [] },
    ghost fits: { RingFits ring scratch.cap } by { Prim.hlevel pool_props },
}

// Why a pull of n ended, where so many were asked for and the workers hold so many.
fn why(n: usize, asked: usize, left: usize) -> Stop
    ensures { result ≡ stop_after n asked left }
{
    if n == asked {
        Stop::Max
    } else if left == 0 {
        Stop::Empty
    } else {
        Stop::NotYet(left)
    }
}

impl<C: Drop, D: Driver<C>> Pool<C, D> {
    ghost use Rattle.std.specs.Prelude.{ℕ, ◌+◌, min, length, take, is_some, slice_index_or};
    ghost use Rattle.std.specs.List.{All};
    ghost use Rattle.crypto_model.specs.Counts.{capped, Rose};
    ghost use Rattle.crypto_op.specs.Op.{IsDone, IsFresh};
    ghost use Rattle.dev_core.specs.Burst.{offered, rest_of, room_of, front, front_log, added, with_ops};
    ghost use Rattle.dev_core.specs.Stats.{no_stats, after_dequeue};
    ghost use Rattle.sched_core.specs.Pending.{InOrder};
    ghost use Rattle.sched_core.specs.Mode.{most_workers};
    ghost use Rattle.sched_core.specs.Stopped.{AreAlike, made_of};
    ghost use Rattle.sched_modes.specs.Crew.{DrawsFrom, Grew, free, only_for, told};
    ghost use Rattle.sched_modes.specs.Workers.{CameInOrder, CameOut, FrontOpen, HasCause, IsNewRing, RoomFell, SameBut, StopIs, WentIn, WentInOrder, places};
    ghost use Rattle.sched_modes.specs.Pool.{Follows, WentOn, crew, held_in, pending_in, stalls_in, stopped};

    /// Workers that hold nothing, with an empty ring or none.
    pub(crate) fn new(
        parts: Parts<D>,
        scratch: OpBurst<C>,
        ring: Option<OrderRing<C>>,
    ) -> Pool<C, D>
        requires sizes { (0 < parts.workers) × (parts.workers ≤ vec_len parts.devs) × (parts.workers ≤ 8) }
        requires alike { EachAlike D.sessions (arc_value parts.sessions) parts.workers parts.devs.items }
        requires empty { (k : ℕ) (d : D) → k < parts.workers → D.held (slice_index_or parts.devs.items k d) ≡ [] }
        requires scratch { (scratch.ops ≡ []) × (scratch.cap ≤ MAX_OPS) }
        requires ring { IsNewRing scratch.cap ring × (is_some ring ≡ parts.ordering) }
        ensures stopped { stopped parts.mode result ≡ made_of parts }
        ensures ring { result.ring ≡ ring }
        ensures pending { pending_in result ≡ [] }
        ensures stats { result.stats ≡ no_stats }
    {
        let Parts {
            mode: _,
            ordering: _,
            threshold,
            sessions,
            devs,
            workers,
        } = parts;
        Pool {
            devs,
            workers,
            threshold,
            ring,
            scratch,
            sessions,
            stats: Stats::new(),
        }
    }

    /// Offers a burst to one worker.
    pub(crate) fn offer_to(&mut self, turn: usize, burst: &mut OpBurst<C>, max: usize) -> usize
        requires turn { turn < self.old.workers }
        requires fresh { All IsFresh (take max burst.old.ops) }
        ensures offered { result ≤ free (places self.old.ring) (offered max burst.old) }
        ensures rest { burst.new ≡ rest_of result burst.old }
        ensures pending { WentIn (front result burst.old) (pending_in self.old) (pending_in self.new) }
        ensures in_order { InOrder self.old.ring → WentInOrder (front result burst.old) (pending_in self.old) (pending_in self.new) }
        ensures ring { Grew result (places self.old.ring) (places self.new.ring) }
        ensures went { WentOn (only_for turn (told (places self.old.ring) (front_log result burst.old))) self.old self.new }
        ensures same { SameBut turn self.old.devs.items self.new.devs.items }
        ensures room { RoomFell D.Driver turn result self.old.devs.items self.new.devs.items }
        ensures cause { HasCause D.Driver turn (free (places self.old.ring) (offered max burst.old)) result self.old.devs.items self.new.devs.items }
        ensures stats { self.new.stats ≡ self.old.stats }
    {
        offer(
            &mut self.ring,
            &mut self.devs,
            self.workers,
            turn,
            burst,
            max,
        )
    }

    /// What has come back, at most `max`.
    pub(crate) fn pull(&mut self, out: &mut OpBurst<C>, max: usize) -> Got
        ensures within { result.n ≤ min max (room_of out.old) }
        ensures kept { out.new ≡ with_ops (added out.old out.new) out.old }
        ensures count { length out.new.ops ≡ length out.old.ops + result.n }
        ensures pending { CameOut (added out.old out.new) (pending_in self.old) (pending_in self.new) }
        ensures in_order { InOrder self.old.ring → CameInOrder (added out.old out.new) (pending_in self.old) (pending_in self.new) }
        ensures done { All (IsDone (arc_value self.old.sessions)) (added out.old out.new) }
        ensures stop { StopIs result.stop result.n (min max (room_of out.old)) (pending_in self.new) (held_in self.new) }
        ensures front { result.n < min max (room_of out.old) → 0 < length (held_in self.new) → FrontOpen self.new.ring }
        ensures does { (turn : ℕ) → DrawsFrom (crew turn self.old) (min max (room_of out.old)) result.n (crew turn self.new) }
        ensures cause { result.n < min (min max (room_of out.old)) (length (pending_in self.old)) → Rose (stalls_in self.old) (stalls_in self.new) }
        ensures stalls { stalls_in self.old ≤ stalls_in self.new }
        ensures follows { Follows self.old self.new }
        ensures sessions { self.new.sessions ≡ self.old.sessions }
        ensures threshold { self.new.threshold ≡ self.old.threshold }
        ensures workers { self.new.workers ≡ self.old.workers }
        ensures stats { self.new.stats ≡ after_dequeue (min max (room_of out.old)) result.n self.old.stats }
    {
        let asked = max.min(out.room());
        let n = draw(
            &mut self.ring,
            &mut self.devs,
            self.workers,
            &mut self.scratch,
            out,
            asked,
        );
        self.stats.count_dequeue(asked, n);
        let left = held_by(&self.devs, self.workers);
        Got {
            n,
            stop: why(n, asked, left),
        }
    }

    /// How many operations are pending, or the last value of a `usize` where they are more.
    pub(crate) fn pending(&self) -> usize
        ensures { result ≡ capped (length (pending_in self.now)) }
    {
        match &self.ring {
            Some(ring) => ring.len(),
            None => held_by(&self.devs, self.workers),
        }
    }

    /// How often the workers have stalled together.
    pub(crate) fn stalls(&self) -> u64
        ensures { result ≡ stalls_in self.now }
    {
        let mut sum: u64 = 0;
        for i in 0..self.workers {
            sum = sum.saturating_add(self.devs[i].stalls());
        }
        sum
    }

    /// The scheduler again, whatever is pending. What lies in the ring is dropped.
    pub(crate) fn break_up(self, mode: Mode) -> Scheduler<D>
        requires { self.workers ≤ most_workers mode }
        ensures stopped { result ≡ stopped mode self }
        ensures alike { AreAlike D.sessions result }
    {
        let Pool {
            devs,
            workers,
            threshold,
            ring,
            scratch: _,
            sessions,
            stats: _,
        } = self;
        Scheduler::from_parts(Parts {
            mode,
            ordering: ring.is_some(),
            threshold,
            sessions,
            devs,
            workers,
        })
    }
}
