//! A list of events with a fixed capacity.
ghost use Rattle.std.specs.Prelude.{◌≡◌, ◌∷◌, [], ◌++◌, ◌+◌, ◌<◌, ◌≤◌, length, IfOk, IsSome, ◌↔◌, slice_index_or};
ghost use Rattle.std.specs.Option.{option_to_list};

use crate::Event;
use crypto_model::OutOfMemory;
use crypto_op::MAX_OPS;
use std::alloc::Global;
use std::collections::VecDeque;
use std::marker::Model;

/// Events in a row, first in, first out, with room for `cap`. Only `new` takes memory.
#[derive(Drop)]
pub struct EventBurst<C> {
    cap: usize,
    events: VecDeque<Event<C>>,
}

impl<C> Model for EventBurst<C> {
    ghost use Rattle.std.specs.Prelude.{◌≤◌};
    ghost use Rattle.std.specs.VecDeque.{deque_len, deque_capacity};
    ghost use Rattle.event_adapter.specs.declared.event.Event.{Event};
    ghost use Rattle.crypto_op.specs.Burst.{Burst};

    ghost Value = { Burst (Event C) };

    ghost view = { λ b. record { cap = b.cap; ops = b.events.items } };

    ghost invariant = { λ b. (deque_len b.events ≤ b.cap) × (b.cap ≤ deque_capacity b.events) };
}

impl<C> EventBurst<C> {
    /// An empty burst with room for at most `MAX_OPS` events.
    pub fn new(alloc: Global, cap: usize) -> Result<EventBurst<C>, OutOfMemory>
        requires { cap ≤ MAX_OPS }
        ensures { IfOk result (λ b. b ≡ record { cap = cap; ops = [] }) }
    {
        Ok(EventBurst {
            cap,
            events: VecDeque::with_capacity(alloc, cap)?,
        })
    }

    /// How many events are in it.
    pub fn len(&self) -> usize
        ensures { result ≡ length self.now.ops }
    {
        self.events.len()
    }

    /// How many more it takes.
    pub fn room(&self) -> usize
        ensures { result + length self.now.ops ≡ self.now.cap }
    {
        self.cap - self.events.len()
    }

    /// Puts an event last. There must be room.
    pub fn push(&mut self, e: Event<C>)
        requires { length self.old.ops < self.old.cap }
        ensures { self.new ≡ record { cap = self.old.cap; ops = self.old.ops ++ e ∷ [] } }
    {
        match self.events.push_back(e) {
            Ok(()) => {}
            Err(_) => unreachable!(),
        }
    }

    /// Takes the first event.
    pub fn pop(&mut self) -> Option<Event<C>>
        ensures cap { self.new.cap ≡ self.old.cap }
        ensures ops { self.old.ops ≡ option_to_list result ++ self.new.ops }
        ensures variant { IsSome result ↔ (0 < length self.old.ops) }
    {
        self.events.pop_front()
    }

    /// Event `i`, counted from 0.
    pub fn get(&self, i: usize) -> &Event<C>
        requires { i < length self.now.ops }
        ensures { result.now ≡ slice_index_or self.now.ops i result.now }
    {
        &self.events[i]
    }
}
