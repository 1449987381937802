//! How operations come back.
ghost use Rattle.std.specs.Prelude.{◌≡◌, ◌+◌, ◌<◌, ◌≤◌, [], length, min, slice_get, Some, MatchOption, IfOk, IfErr, true, false};
ghost use Rattle.dev_core.specs.Burst.{room_of};
ghost use Rattle.sched_multicore.specs.declared.place.Trip.{Trip};
ghost use Rattle.sched_multicore.specs.declared.place.Place.TheVariants.{Away};
ghost use Rattle.sched_multicore.specs.Place.{NoneGone, unreturned};
ghost use Rattle.sched_multicore.specs.Step.{Bagged, Brought, Dequeued, Ends, IsAwaited, LookedAt, Returned};

use crate::place::{Place, Trip, is_away, take_answered, take_trip};
use crate::queue::McQp;
use crypto_op::{Op, OpBurst};
use flight_table::Word;
use std::sync::Wait;

/// Why a dequeue gave no more.
#[derive(Clone, Copy, Debug, PartialEq, Eq)]
pub enum McStop {
    /// It gave as many as it was asked for and there was room for.
    Max,
    /// Nothing is pending.
    Empty,
    /// The first pending operation isn't done: its slot had this word.
    NotYet(Word),
}

/// How many operations a dequeue gave, and why no more.
#[derive(Clone, Copy, Debug, PartialEq, Eq)]
pub struct McGot {
    pub n: usize,
    pub stop: McStop,
}

// The first word of two.
fn earlier(was: Option<Word>, word: Word) -> Word
    ensures { MatchOption was (result ≡ word) (λ w. result ≡ w) }
{
    match was {
        None => word,
        Some(w) => w,
    }
}

impl<C> McQp<C> {
    // The first pending operation, if it is done; or else the word of its slot.
    fn take_front(&mut self) -> Result<Op<C>, Word>
        requires some { 0 < length self.old.places }
        requires ordered { self.old.ordering ≡ true }
        ensures ok { IfOk result (λ op. Returned self.old op self.new) }
        ensures err { IfErr result (λ n. LookedAt self.old 0 n self.new × IsAwaited n.phase) }
    {
        match self.places.pop_front() {
            None => unreachable!(),
            Some(Place::Gone) => unreachable!(),
            Some(Place::Answered(op)) => {
                self.first += 1;
                Ok(op)
            }
            Some(Place::Away(trip)) => {
                let k = (self.first % self.slots as u64) as usize;
                match self.owner.collect(k) {
                    Err(n) => {
                        self.places.push_front_reserved(Place::Away(trip));
                        Err(n)
                    }
                    Ok(op) => {
                        let Trip {
                            cargo,
                            sent: _,
                            worker,
                        } = trip;
                        self.loads[worker] -= 1;
                        self.first += 1;
                        let (op, note) = op.with_cargo(cargo);
                        self.book.meet(note);
                        Ok(op)
                    }
                }
            }
        }
    }

    // Returns the first pending operations that are done, in order.
    fn dequeue_in_order(&mut self, out: &mut OpBurst<C>, max: usize) -> McGot
        requires ordered { self.old.ordering ≡ true }
        ensures dequeued { Dequeued self.old out.old result.n self.new out.new }
        ensures stop { Ends (min max (room_of out.old)) result.n self.old self.new result.stop }
    {
        let most = max.min(out.room());
        for n in 0..most {
            if self.places.is_empty() {
                return McGot {
                    n,
                    stop: McStop::Empty,
                };
            }
            match self.take_front() {
                Ok(op) => out.push(op),
                Err(word) => {
                    return McGot {
                        n,
                        stop: McStop::NotYet(word),
                    };
                }
            }
        }
        McGot {
            n: most,
            stop: McStop::Max,
        }
    }

    // Takes the operation of a place, if it is done. Or else the word of its slot.
    fn collect_at(&mut self, i: usize) -> Result<Option<Op<C>>, Word>
        requires place { i < length self.old.places }
        requires unordered { self.old.ordering ≡ false }
        ensures ok { IfOk result (λ x. Brought self.old i x self.new) }
        ensures err { IfErr result (λ n. LookedAt self.old i n self.new × IsAwaited n.phase
            × ((t : Trip C) × (slice_get self.old.places i ≡ Some (Away t)))) }
    {
        if !is_away(&self.places, i) {
            return Ok(take_answered(&mut self.places, i));
        }
        let k = ((self.first + i as u64) % self.slots as u64) as usize;
        match self.owner.collect(k) {
            Err(n) => Err(n),
            Ok(op) => {
                let Trip {
                    cargo,
                    sent: _,
                    worker,
                } = take_trip(&mut self.places, i);
                self.loads[worker] -= 1;
                let (op, note) = op.with_cargo(cargo);
                self.book.meet(note);
                Ok(Some(op))
            }
        }
    }

    // Returns pending operations that are done, in any order.
    fn dequeue_any(&mut self, out: &mut OpBurst<C>, max: usize) -> McGot
        requires unordered { self.old.ordering ≡ false }
        ensures bagged { Bagged self.old out.old result.n self.new out.new }
        ensures stop { Ends (min max (room_of out.old)) result.n self.old self.new result.stop }
    {
        let most = max.min(out.room());
        let mut n = 0;
        let mut word = None;
        for i in 0..self.places.len() {
            if n == most {
                return McGot {
                    n,
                    stop: McStop::Max,
                };
            }
            match self.collect_at(i) {
                Ok(Some(op)) => {
                    out.push(op);
                    n += 1;
                }
                Ok(None) => {}
                Err(w) => word = Some(earlier(word, w)),
            }
        }
        if n == most {
            return McGot {
                n,
                stop: McStop::Max,
            };
        }
        match word {
            None => McGot {
                n,
                stop: McStop::Empty,
            },
            Some(w) => McGot {
                n,
                stop: McStop::NotYet(w),
            },
        }
    }

    /// Moves answered operations behind those of `out`, at most `max`: with ordering on the first that are pending,
    /// in order, else any. Each pending operation is looked at once at most.
    pub fn dequeue_burst(&mut self, out: &mut OpBurst<C>, max: usize) -> McGot
        ensures ordered { self.old.ordering ≡ true → Dequeued self.old out.old result.n self.new out.new }
        ensures bagged { Bagged self.old out.old result.n self.new out.new }
        ensures stop { Ends (min max (room_of out.old)) result.n self.old self.new result.stop }
    {
        if self.ordering {
            self.dequeue_in_order(out, max)
        } else {
            self.dequeue_any(out, max)
        }
    }

    /// Moves all pending operations behind those of `out`, which must have room for them. It tries again until all
    /// are done, so it returns only where workers or other calls of them answer what they were given.
    pub fn drain<R: Wait>(&mut self, rt: &R, out: &mut OpBurst<C>)
        requires room { length (unreturned self.old.places) ≤ room_of out.old }
        ensures none { unreturned self.new.places ≡ [] }
        ensures ordered { self.old.ordering ≡ true → Dequeued self.old out.old (length (unreturned self.old.places)) self.new out.new }
        ensures bagged { Bagged self.old out.old (length (unreturned self.old.places)) self.new out.new }
    {
        let _ordering = self.ordering;
        for _ in rt.forever() {
            self.dequeue_burst(out, usize::MAX);
            if self.pending() == 0 {
                return;
            }
        }
    }
}
