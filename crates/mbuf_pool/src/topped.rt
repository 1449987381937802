//! A pool of one thread that makes fresh segments where none is left.
ghost use Rattle.std.specs.Prelude.{◌≡◌, IfOk, OnErr};
ghost use Rattle.std.specs.Result.{IsErrOf};
ghost use Rattle.mbuf_chain.specs.Emptied.{IsEmptied};
ghost use Rattle.mbuf_chain.specs.declared.store.NoSeg.TheVariants.{Empty};
ghost use Rattle.mbuf_pool.specs.Stock.{taken, given};

use crate::LocalPool;
use mbuf_chain::{FreshSegs, NoSeg, SegStore};
use seg_list::Seg;
use std::alloc::Global;
use std::marker::Model;

/// Segments from a pool, and fresh ones where it is empty. Contracts see what its pool has.
#[derive(Drop)]
pub struct Topped {
    pool: LocalPool,
    fresh: FreshSegs,
}

impl Model for Topped {
    ghost use Rattle.mbuf_pool.specs.Stock.{Stock};

    ghost Value = { Stock };

    ghost view = { λ t. t.pool };

    ghost invariant = { λ t. Unit {0} };
}

impl Topped {
    /// A store over a pool, whatever is left in it.
    pub fn new(alloc: Global, pool: LocalPool) -> Topped
        ensures { result ≡ pool }
    {
        Topped {
            pool,
            fresh: FreshSegs::new(alloc),
        }
    }
}

impl SegStore for Topped {
    ghost endless = { Unit {0} };

    /// Takes memory only where the pool is empty.
    fn take(&mut self) -> Result<Seg, NoSeg>
        ensures emptied { IfOk result IsEmptied }
        ensures endless { Unit {0} → ¬ (IsErrOf result Empty) }
        ensures wanting { OnErr result (self.old.left ≡ 0) }
        ensures left { self.new ≡ taken self.old }
    {
        if let Ok(seg) = self.pool.take() {
            return Ok(seg);
        }
        self.fresh.take()
    }

    /// Keeps the segment, or drops it where the pool is full. Takes no memory.
    fn give(&mut self, seg: Seg)
        requires { IsEmptied seg }
        ensures { self.new ≡ given self.old }
    {
        self.pool.give(seg);
    }
}
