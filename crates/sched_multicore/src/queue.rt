//! The queue pair, and how operations get in.
ghost use Rattle.std.specs.Prelude.{◌≡◌, ◌+◌, ◌-◌, ◌<◌, ◌≤◌, ◌^◌, [], ℕ, length, map, take, min, slice_index_or, slice_get, Some, IfOk};
ghost use Rattle.std.specs.List.{All, sum_by};
ghost use Rattle.std.specs.Arc.{arc_value};
ghost use Rattle.crypto_op.specs.Op.{IsFresh};
ghost use Rattle.dev_core.specs.Burst.{offered, rest_of};
ghost use Rattle.flight_table.specs.Call.{hands_of};
ghost use Rattle.sched_multicore.specs.declared.place.Place.TheVariants.{Gone};
ghost use Rattle.sched_multicore.specs.Place.{BeginsPending, span, unreturned};
ghost use Rattle.sched_multicore.specs.Queue.{AreFull, IsNewPair, after_workers, dealt, finished_of, key_of, keys_from, spare, turn_after};
ghost use Rattle.sched_multicore.specs.Step.{Accepted, Enqueued, Heaped, Spread, Trimmed};

use crate::place::{Place, Trip, count_at, is_front_gone, let_go};
use crypto_model::OutOfMemory;
use crypto_op::{MAX_OPS, Op, OpBurst};
use flight_table::{Book, Flight, Hand, Owner};
use std::alloc::Global;
use std::collections::VecDeque;
use std::marker::Model;
use std::snapshot::Snapshot;
use std::sync::Arc;
use sym_session::SessionTable;

/// A queue pair over workers in other threads. A contract sees what it keeps.
#[derive(Drop)]
pub struct McQp<C> {
    pub(crate) book: Book,
    pub(crate) owner: Owner,
    pub(crate) sessions: Arc<SessionTable>,
    pub(crate) places: VecDeque<Place<C>>,
    pub(crate) first: u64,
    pub(crate) slots: usize,
    pub(crate) quota: usize,
    pub(crate) loads: Vec<usize>,
    pub(crate) turn: usize,
    pub(crate) ordering: bool,
    pub(crate) helped: u64,
}

impl<C> Model for McQp<C> {
    ghost use Rattle.std.specs.Prelude.{◌≡◌, ◌≤◌, length};
    ghost use Rattle.std.specs.Arc.{arc_value};
    ghost use Rattle.std.specs.VecDeque.{deque_len, deque_capacity};
    ghost use Rattle.sched_multicore.specs.Queue.{Queue, Sound};

    ghost Value = { Queue C };

    ghost view = { λ q. record {
      book = q.book;
      desk = q.owner;
      places = q.places.items;
      first = q.first;
      quota = q.quota;
      loads = q.loads.items;
      turn = q.turn;
      ordering = q.ordering;
      helped = q.helped;
    } };

    ghost invariant = { λ q. Sound (record {
      book = q.book;
      desk = q.owner;
      places = q.places.items;
      first = q.first;
      quota = q.quota;
      loads = q.loads.items;
      turn = q.turn;
      ordering = q.ordering;
      helped = q.helped;
    })
        × (q.slots ≡ q.owner.slots) × (q.slots ≤ deque_capacity q.places) × (deque_len q.places ≡ length q.places.items)
        × (arc_value q.sessions ≡ q.book.sessions) };
}

// The turn after a call that was offered so many.
fn next_turn(turn: usize, workers: usize, offered: usize) -> usize
    requires { turn < workers }
    ensures next { result ≡ turn_after turn workers offered }
    ensures within { result < workers }
{
    if offered == 0 {
        turn
    } else {
        (turn + 1) % workers
    }
}

impl<C> McQp<C> {
    /// A queue pair for these sessions, with a hand for each worker, in order of their numbers. It has at most
    /// `slots` numbers between the first that is pending and the next, and at most `quota` operations are
    /// outstanding at a worker. Only this call takes memory.
    pub fn open(
        alloc: Global,
        workers: usize,
        quota: usize,
        slots: usize,
        ordering: bool,
        sessions: Arc<SessionTable>,
    ) -> Result<(McQp<C>, Vec<Hand>), OutOfMemory>
        requires workers { (1 ≤ workers) × (workers ≤ 8) }
        requires quota { (1 ≤ quota) × (quota ≤ MAX_OPS) }
        requires slots { (1 ≤ slots) × (slots ≤ MAX_OPS) }
        ensures new { IfOk result (λ r. IsNewPair workers quota slots ordering (arc_value sessions) r.0) }
        ensures hands { IfOk result (λ r. r.1.items ≡ hands_of r.0.desk.table slots r.0.book workers) }
        ensures keys { IfOk result (λ r. map key_of r.1.items ≡ keys_from r.0.desk.table 0 workers) }
    {
        let book = Book::open(alloc, &sessions)?;
        let (owner, hands) = Flight::open(alloc, slots, workers, &book)?;
        let loads = Vec::from_elem(alloc, 0, workers)?;
        let places = VecDeque::with_capacity(alloc, slots)?;
        let qp = McQp {
            book,
            owner,
            sessions,
            places,
            first: 0,
            slots,
            quota,
            loads,
            turn: 0,
            ordering,
            helped: 0,
        };
        Ok((qp, hands))
    }

    // Accepts an operation for the worker w.
    fn accept(&mut self, op: Op<C>, w: usize)
        requires fresh { IsFresh op }
        requires room { length self.old.places < self.old.desk.slots }
        requires few { length self.old.book.drawn < 2 ^ 58 }
        requires worker { (w < length self.old.loads) × (slice_index_or self.old.loads w 0 < self.old.quota) }
        ensures { Accepted self.old op w self.new }
    {
        let number = self.first + self.places.len() as u64;
        let k = (number % self.slots as u64) as usize;
        let note = self.book.draw(&op);
        let (op, cargo) = op.with_cargo(note);
        let sent = Snapshot::of(&op);
        self.owner.publish(k, op, w);
        self.loads[w] += 1;
        self.places.push_back_reserved(Place::Away(Trip {
            cargo,
            sent,
            worker: w,
        }));
    }

    // Gives operations to a worker as far as its quota reaches.
    fn give(&mut self, burst: &mut OpBurst<C>, most: usize, w: usize) -> usize
        requires ops { (most ≤ length burst.old.ops) × All IsFresh (take most burst.old.ops) }
        requires room { length self.old.places + most ≤ self.old.desk.slots }
        requires few { length self.old.book.drawn + most ≤ 2 ^ 58 }
        requires worker { w < length self.old.loads }
        ensures number { result ≡ min most (self.old.quota - slice_index_or self.old.loads w 0) }
        ensures rest { burst.new ≡ rest_of result burst.old }
        ensures heaped { Heaped self.old (take result burst.old.ops) w self.new }
        ensures within { slice_index_or self.old.loads w 0 ≤ self.old.quota }
    {
        let n = most.min(self.quota - self.loads[w]);
        for _i in 0..n {
            match burst.pop() {
                Some(op) => self.accept(op, w),
                None => unreachable!(),
            }
        }
        n
    }

    // Gives operations to some workers, one after another, as far as their quotas reach.
    fn spread(&mut self, burst: &mut OpBurst<C>, most: usize, from: usize, to: usize) -> usize
        requires ops { (most ≤ length burst.old.ops) × All IsFresh (take most burst.old.ops) }
        requires room { length self.old.places + most ≤ self.old.desk.slots }
        requires few { length self.old.book.drawn + most ≤ 2 ^ 58 }
        requires workers { (from ≤ to) × (to ≤ length self.old.loads) }
        ensures number { result ≤ most }
        ensures rest { burst.new ≡ rest_of result burst.old }
        ensures spread { Spread self.old (take result burst.old.ops) self.new }
        ensures loads { (most - result, self.new.loads) ≡ after_workers self.old.quota from (to - from) (most, self.old.loads) }
        ensures full { result < most → AreFull self.new.quota self.new.loads from to }
        ensures more { (v : ℕ) → slice_index_or self.old.loads v 0 ≤ slice_index_or self.new.loads v 0 }
    {
        let mut n = 0;
        for w in from..to {
            n += self.give(burst, most - n, w);
        }
        n
    }

    // Accepts the first operations of the burst; the turn stays.
    fn deal(&mut self, burst: &mut OpBurst<C>, max: usize) -> usize
        requires fresh { All IsFresh (take max burst.old.ops) }
        requires few { length self.old.book.drawn < 2 ^ 58 - 4096 }
        ensures number { result ≡ min (offered max burst.old) (min (self.old.desk.slots - length self.old.places) (spare self.old.quota self.old.loads)) }
        ensures rest { burst.new ≡ rest_of result burst.old }
        ensures spread { Spread self.old (take result burst.old.ops) self.new }
        ensures loads { self.new.loads ≡ dealt self.old.quota self.old.turn
            (min (offered max burst.old) (self.old.desk.slots - length self.old.places)) self.old.loads }
    {
        let offered = max.min(burst.len());
        let most = offered.min(self.slots - self.places.len());
        let turn = self.turn;
        let workers = self.loads.len();
        let n = self.spread(burst, most, turn, workers);
        n + self.spread(burst, most - n, 0, turn)
    }

    // Forgets the first number, which was returned.
    fn drop_front(&mut self)
        requires { slice_get self.old.places 0 ≡ Some Gone }
        ensures trimmed { Trimmed self.old self.new }
        ensures fewer { length self.old.places ≡ length self.new.places + 1 }
    {
        match self.places.pop_front() {
            Some(place) => let_go(place),
            None => unreachable!(),
        }
        self.first += 1;
    }

    // Forgets the first numbers that were returned.
    fn trim(&mut self)
        ensures trimmed { Trimmed self.old self.new }
        ensures begins { BeginsPending self.new.places }
    {
        for _i in 0..self.places.len() {
            if !is_front_gone(&self.places) {
                return;
            }
            self.drop_front();
        }
    }

    /// Accepts the first operations of the burst, at most `max`, as far as there are slots and the workers' quotas
    /// reach. They go to the worker whose turn it is as far as its quota reaches, what is left to the next one, and
    /// so on. The rest stays in the burst. A call that is offered an operation moves the turn to the next worker.
    pub fn enqueue_burst(&mut self, burst: &mut OpBurst<C>, max: usize) -> usize
        requires fresh { All IsFresh (take max burst.old.ops) }
        requires few { length self.old.book.drawn < 2 ^ 58 - 4096 }
        ensures number { result ≡ min (offered max burst.old) (min (self.old.desk.slots - span self.old.places) (spare self.old.quota self.old.loads)) }
        ensures rest { burst.new ≡ rest_of result burst.old }
        ensures enqueued { Enqueued self.old (take result burst.old.ops) self.new }
        ensures loads { self.new.loads ≡ dealt self.old.quota self.old.turn
            (min (offered max burst.old) (self.old.desk.slots - span self.old.places)) self.old.loads }
        ensures turn { self.new.turn ≡ turn_after self.old.turn (length self.old.loads) (offered max burst.old) }
    {
        self.trim();
        let offered = max.min(burst.len());
        let n = self.deal(burst, max);
        self.turn = next_turn(self.turn, self.loads.len(), offered);
        n
    }

    /// How many operations are accepted and not returned.
    pub fn pending(&self) -> usize
        ensures { result ≡ length (unreturned self.now.places) }
    {
        let mut n = 0;
        for i in 0..self.places.len() {
            n += count_at(&self.places, i);
        }
        n
    }
}

impl<C: Drop> McQp<C> {
    /// Ends the queue pair with its hands, in the order of their workers. What they finished and what was answered
    /// here is together all that was drawn.
    pub fn close(mut self, hands: Vec<Hand>)
        requires pending { unreturned self.places ≡ [] }
        requires hands { map key_of hands.items ≡ keys_from self.desk.table 0 (length self.loads) }
        ensures { sum_by finished_of hands.items + self.helped ≡ length self.book.drawn }
    {
        self.trim();
        let McQp { owner, .. } = self;
        owner.close(hands);
    }
}
