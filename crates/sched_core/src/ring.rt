//! Operations in the order of their numbers.
ghost use Rattle.std.specs.Prelude.{◌≡◌, ℕ, ◌+◌, ◌-◌, ◌%◌, ◌^◌, ◌<◌, ◌≤◌, [], ◌∷◌, ◌++◌, length, IfOk};
ghost use Rattle.std.specs.VecDeque.{deque_len, deque_capacity};
ghost use Rattle.sched_core.specs.declared.ring.Slot.TheVariants.{Open, Settled};

use crypto_model::OutOfMemory;
use crypto_op::{MAX_OPS, Op};
use std::alloc::Global;
use std::collections::VecDeque;
use std::marker::Model;

/// A numbered place: open, with the pos that its operation had, or settled, with the operation.
#[derive(Drop)]
pub enum Slot<C> {
    Open(u64),
    Settled(Op<C>),
}

/// What stands at a ring's front.
#[derive(Clone, Copy, Debug, PartialEq, Eq)]
pub enum Front {
    /// The ring has no slot.
    Empty,
    /// The first slot is open, under this number.
    Open(u64),
    Settled,
}

/// Slots with numbers that count modulo 2^64, at most as many as its capacity. An operation that goes to a
/// worker opens one, and settles it when it comes back:
///
/// ```text
/// number   6            7         8            9
/// slot     settled op   open 40   settled op   open 42      first 6, next 10
/// ```
///
/// The operations leave at the front, in the order of their numbers.
#[derive(Drop)]
pub struct OrderRing<C> {
    cap: usize,
    first: u64,
    slots: VecDeque<Slot<C>>,
}

impl<C> Model for OrderRing<C> {
    ghost use Rattle.std.specs.Prelude.{◌≤◌};
    ghost use Rattle.std.specs.VecDeque.{deque_len, deque_capacity};
    ghost use Rattle.sched_core.specs.declared.ring.Slot.{Slot};
    ghost use Rattle.sched_core.specs.Ring.{Ring};
    ghost use Rattle.crypto_op.specs.declared.burst.TheConstants.{MAX_OPS};

    ghost Value = { Ring (Slot C) };

    ghost view = { λ r. record { cap = r.cap; first = r.first; slots = r.slots.items } };

    ghost invariant = { λ r. (deque_len r.slots ≤ r.cap) × (r.cap ≤ deque_capacity r.slots) × (r.cap ≤ MAX_OPS) };
}

impl<C: Drop> OrderRing<C> {
    ghost use Rattle.sched_core.specs.Ring.{number, place, IsOpenAt, settled_at, front_of};

    pub fn new(alloc: Global, cap: usize) -> Result<OrderRing<C>, OutOfMemory>
        requires { (1 ≤ cap) × (cap ≤ MAX_OPS) }
        ensures { IfOk result (λ r. r ≡ record { cap = cap; first = 0; slots = [] }) }
    {
        Ok(OrderRing {
            cap,
            first: 0,
            slots: VecDeque::with_capacity(alloc, cap)?,
        })
    }

    /// How many slots can be opened.
    pub fn free(&self) -> usize
        ensures { result + length self.now.slots ≡ self.now.cap }
    {
        self.cap - self.slots.len()
    }

    /// How many slots there are.
    pub fn len(&self) -> usize
        ensures { result ≡ length self.now.slots }
    {
        self.slots.len()
    }

    /// The number that the next slot gets.
    pub fn next(&self) -> u64
        ensures { result ≡ number self.now (length self.now.slots) }
    {
        self.first.wrapping_add(self.slots.len() as u64)
    }

    /// Opens a slot for an operation with this pos, and answers its number.
    pub fn open(&mut self, saved: u64) -> u64
        requires { length self.old.slots < self.old.cap }
        ensures number { result ≡ number self.old (length self.old.slots) }
        ensures after { self.new ≡ record self.old { slots = self.old.slots ++ Open saved ∷ [] } }
    {
        let number = self.next();
        match self.slots.push_back(Slot::Open(saved)) {
            Ok(()) => {}
            Err(_) => unreachable!(),
        }
        number
    }

    /// Takes the newest slot away, and answers the pos that it saved.
    pub fn undo(&mut self) -> u64
        requires { IsOpenAt self.old.slots (length self.old.slots - 1) }
        ensures { self.old ≡ record self.new { slots = self.new.slots ++ Open result ∷ [] } }
    {
        match self.slots.pop_back() {
            Some(Slot::Open(saved)) => saved,
            Some(Slot::Settled(_)) => unreachable!(),
            None => unreachable!(),
        }
    }

    /// Puts an operation into the slot that has its pos as number. It gets its saved pos back.
    pub fn settle(&mut self, op: Op<C>)
        requires { IsOpenAt self.old.slots (place self.old op.spec.pos) }
        ensures { self.new ≡ record self.old { slots = settled_at self.old.slots (place self.old op.spec.pos) op } }
    {
        let i = op.spec().pos.wrapping_sub(self.first) as usize;
        let slot = &mut self.slots[i];
        if let Slot::Open(saved) = slot {
            let mut op = op;
            op.set_pos(*saved);
            *slot = Slot::Settled(op);
        } else {
            unreachable!()
        }
    }

    pub fn front(&self) -> Front
        ensures { result ≡ front_of self.now }
    {
        match self.slots.get(0) {
            None => Front::Empty,
            Some(Slot::Open(_)) => Front::Open(self.first),
            Some(Slot::Settled(_)) => Front::Settled,
        }
    }

    /// Takes the first slot away, and answers its operation.
    pub fn take_front(&mut self) -> Op<C>
        requires { front_of self.old ≡ Front.Settled }
        ensures slots { self.old.slots ≡ Settled result ∷ self.new.slots }
        ensures rest { self.new ≡ record self.old { first = (self.old.first + 1) % 2 ^ 64; slots = self.new.slots } }
    {
        match self.slots.pop_front() {
            Some(Slot::Settled(op)) => {
                self.first = self.first.wrapping_add(1);
                op
            }
            Some(Slot::Open(_)) => unreachable!(),
            None => unreachable!(),
        }
    }
}
