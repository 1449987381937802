//! A pool that threads share.
ghost use Rattle.std.specs.Prelude.{◌≡◌, ◌+◌, ◌≤◌, IfOk, OnOk, OnErr};
ghost use Rattle.mbuf_chain.specs.Emptied.{IsEmptied};
ghost use Rattle.mbuf_pool.specs.Ticket.{new_ticket};

use crossbeam_queue::protocol::{Lesson, Outcome, Protocol, Split};
use crossbeam_queue::{Pass, RuledArrayQueue};
use crypto_model::OutOfMemory;
use seg_list::Seg;
use std::alloc::Global;
use std::marker::Model;
use std::sync::Wait;

// What lies in the queue is empty; a pass knows nothing beside that.
struct Emptied;

impl Protocol<Seg, ()> for Emptied {
    ghost use Rattle.std.specs.Prelude.{All};
    ghost use Rattle.mbuf_chain.specs.Emptied.{IsEmptied};

    ghost holds = { λ segs passes. All IsEmptied segs };

    ghost first = { tt };
}

impl Outcome<Seg, ()> for Emptied {
    ghost use Rattle.mbuf_chain.specs.Emptied.{IsEmptied};

    ghost then = { λ before seg after. IsEmptied seg };
}

impl Lesson<Seg, ()> for Emptied {
    ghost fact = { λ pass segs. Unit {0} };
}

impl Split<()> for Emptied {
    ghost left = { λ pass. tt };

    ghost right = { λ pass. tt };
}

type Queue = RuledArrayQueue<Seg, (), Emptied>;

/// Segments for many threads. A contract sees which pool it is.
#[derive(Drop)]
pub struct Pool {
    queue: Queue,
}

impl Model for Pool {
    ghost use Rattle.atomic_table.specs.Seated.{TableId};

    ghost Value = { TableId };

    ghost view = { λ p. p.queue.table.shared.table_id };

    ghost invariant = { λ p. Unit {0} };
}

/// What one thread needs to use a [`Pool`]. A contract sees the pool that it is of, and how many fresh segments it took.
#[derive(Drop)]
pub struct SegPass {
    pass: Pass<Seg, ()>,
    fresh: u64,
}

impl Model for SegPass {
    ghost use Rattle.std.specs.Prelude.{◌≡◌, []};
    ghost use Rattle.mbuf_pool.specs.Ticket.{Ticket};

    ghost Value = { Ticket };

    ghost view = { λ p. record { pool = p.pass.table_id; fresh = p.fresh } };

    ghost invariant = { λ p. p.pass.me.1 ≡ [] };
}

impl SegPass {
    /// A pass of the same pool for another thread.
    pub fn split(&mut self, pool: &Pool) -> SegPass
        requires { self.old.pool ≡ pool.now }
        ensures same { self.new ≡ self.old }
        ensures other { result ≡ new_ticket pool.now }
    {
        SegPass {
            pass: pool.queue.another::<Emptied>(&mut self.pass),
            fresh: 0,
        }
    }

    /// How many fresh segments this pass took where the queue was empty. The count stands still at its type's end.
    pub fn fresh(&self) -> u64
        ensures { result ≡ self.now.fresh }
    {
        self.fresh
    }
}

impl Pool {
    /// A pool of `n` segments, with a pass of it.
    pub fn open<R: Wait>(rt: &R, alloc: Global, n: usize) -> Result<(Pool, SegPass), OutOfMemory>
        requires { (1 ≤ n) × (n ≤ 16384) }
        ensures { IfOk result (λ r. r.1 ≡ new_ticket r.0) }
    {
        let (queue, pass) = Queue::ruled(alloc, n)?;
        let pool = Pool { queue };
        let mut pass = SegPass { pass, fresh: 0 };
        for _ in 0..n {
            let seg = Seg::new(alloc, 0)?;
            pool.give(rt, &mut pass, seg);
        }
        Ok((pool, pass))
    }

    /// Takes a segment, or makes a fresh one where the queue tells that it is empty.
    pub fn take<R: Wait>(
        &self,
        rt: &R,
        alloc: Global,
        pass: &mut SegPass,
    ) -> Result<Seg, OutOfMemory>
        requires { pass.old.pool ≡ self.now }
        ensures emptied { IfOk result IsEmptied }
        ensures pool { pass.new.pool ≡ pass.old.pool }
        ensures fresh { OnOk result ((pass.old.fresh ≤ pass.new.fresh) × (pass.new.fresh ≤ pass.old.fresh + 1)) }
        ensures wanting { OnErr result (pass.new ≡ pass.old) }
    {
        if let Some(seg) = self.queue.pop_as::<Emptied, R>(rt, &mut pass.pass) {
            return Ok(seg);
        }
        let seg = Seg::new(alloc, 0)?;
        pass.fresh = pass.fresh.saturating_add(1);
        Ok(seg)
    }

    /// Puts a segment back without its data, or drops it where the queue tells that it is full.
    pub fn give<R: Wait>(&self, rt: &R, pass: &mut SegPass, mut seg: Seg)
        requires { pass.old.pool ≡ self.now }
        ensures { pass.new ≡ pass.old }
    {
        seg.set(0, 0);
        drop(self.queue.push_as::<Emptied, R>(rt, &mut pass.pass, seg));
    }
}
