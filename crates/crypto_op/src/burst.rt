//! A list of operations with a fixed capacity.
ghost use Rattle.std.specs.Prelude.{◌≡◌, ◌==◌, ◌∷◌, [], ◌++◌, ◌+◌, ◌<◌, ◌≤◌, ◌-◌, length, take, drop, IfOk, IsSome, ◌↔◌, slice_index_or};
ghost use Rattle.std.specs.VecDeque.{deque_len, deque_capacity};
ghost use Rattle.std.specs.Option.{option_to_list};
ghost use Rattle.crypto_op.specs.Burst.{at_pos};

use crate::Op;
use crate::moves::move_front;
use crypto_model::OutOfMemory;
use std::alloc::Global;
use std::collections::VecDeque;
use std::marker::Model;

/// As many operations as a burst has room for, a device holds, or a ring or a table has places for.
pub const MAX_OPS: usize = 4096;

/// Operations in a row, first in, first out, with room for `cap`. Only `new` takes memory.
#[derive(Drop)]
pub struct OpBurst<C> {
    cap: usize,
    ops: VecDeque<Op<C>>,
}

impl<C> Model for OpBurst<C> {
    ghost use Rattle.std.specs.Prelude.{◌≤◌};
    ghost use Rattle.std.specs.VecDeque.{deque_len, deque_capacity};
    ghost use Rattle.crypto_op.specs.declared.op.Op.{Op};
    ghost use Rattle.crypto_op.specs.Burst.{Burst};

    ghost Value = { Burst (Op C) };

    ghost view = { λ b. record { cap = b.cap; ops = b.ops.items } };

    ghost invariant = { λ b. (deque_len b.ops ≤ b.cap) × (b.cap ≤ deque_capacity b.ops) };
}

impl<C> OpBurst<C> {
    /// An empty burst with room for at most `MAX_OPS` operations.
    pub fn new(alloc: Global, cap: usize) -> Result<OpBurst<C>, OutOfMemory>
        requires { cap ≤ MAX_OPS }
        ensures { IfOk result (λ b. b ≡ record { cap = cap; ops = [] }) }
    {
        Ok(OpBurst {
            cap,
            ops: VecDeque::with_capacity(alloc, cap)?,
        })
    }

    /// How many operations are in it.
    pub fn len(&self) -> usize
        ensures { result ≡ length self.now.ops }
    {
        self.ops.len()
    }

    /// Whether there is none.
    pub fn is_empty(&self) -> bool
        ensures { result ≡ (length self.now.ops == 0) }
    {
        self.ops.is_empty()
    }

    /// How many more it takes.
    pub fn room(&self) -> usize
        ensures { result + length self.now.ops ≡ self.now.cap }
    {
        self.cap - self.ops.len()
    }

    /// Puts an operation last. There must be room.
    pub fn push(&mut self, op: Op<C>)
        requires { length self.old.ops < self.old.cap }
        ensures { self.new ≡ record { cap = self.old.cap; ops = self.old.ops ++ op ∷ [] } }
    {
        match self.ops.push_back(op) {
            Ok(()) => {}
            Err(_) => unreachable!(),
        }
    }

    /// Takes the first operation.
    pub fn pop(&mut self) -> Option<Op<C>>
        ensures cap { self.new.cap ≡ self.old.cap }
        ensures ops { self.old.ops ≡ option_to_list result ++ self.new.ops }
        ensures variant { IsSome result ↔ (0 < length self.old.ops) }
    {
        self.ops.pop_front()
    }

    /// Operation `i`, counted from 0.
    pub fn get(&self, i: usize) -> &Op<C>
        requires { i < length self.now.ops }
        ensures { result.now ≡ slice_index_or self.now.ops i result.now }
    {
        &self.ops[i]
    }

    /// Gives operation `i` another pos, and changes nothing else.
    pub fn set_pos(&mut self, i: usize, pos: u64)
        requires { i < length self.old.ops }
        ensures { self.new ≡ record { cap = self.old.cap; ops = at_pos self.old.ops i pos } }
    {
        let op = &mut self.ops[i];
        op.set_pos(pos);
    }

    /// Moves the first `n` operations behind those of a queue that has room for them.
    pub fn drain_to(&mut self, queue: &mut VecDeque<Op<C>>, n: usize)
        requires enough { n ≤ length self.old.ops }
        requires room { deque_len queue.old + n ≤ deque_capacity queue.old }
        ensures rest { self.new ≡ record self.old { ops = drop n self.old.ops } }
        ensures items { queue.new.items ≡ queue.old.items ++ take n self.old.ops }
        ensures capacity { deque_capacity queue.old ≤ deque_capacity queue.new }
    {
        move_front(&mut self.ops, queue, n);
    }

    /// Moves the first `n` operations of a queue behind those that are here. There must be room.
    pub fn fill_from(&mut self, queue: &mut VecDeque<Op<C>>, n: usize)
        requires enough { n ≤ deque_len queue.old }
        requires room { n ≤ self.old.cap - length self.old.ops }
        ensures ops { self.new ≡ record self.old { ops = self.old.ops ++ take n queue.old.items } }
        ensures rest { queue.new.items ≡ drop n queue.old.items }
        ensures capacity { deque_capacity queue.new ≡ deque_capacity queue.old }
    {
        move_front(queue, &mut self.ops, n);
    }
}
