//! A pool of one thread.
ghost use Rattle.std.specs.Prelude.{◌≡◌, ◌<◌, ◌≤◌, IfOk, IfErr, OnOk};
ghost use Rattle.std.specs.Result.{IsErrOf};
ghost use Rattle.mbuf_chain.specs.Emptied.{IsEmptied};
ghost use Rattle.mbuf_chain.specs.declared.store.NoSeg.TheVariants.{Empty};
ghost use Rattle.mbuf_pool.specs.Stock.{full, taken, given};

use crypto_model::OutOfMemory;
use mbuf_chain::{NoSeg, SegStore};
use seg_list::Seg;
use std::alloc::Global;
use std::marker::Model;

/// Segments for one thread, which contracts see as how many are left and how many it keeps at most.
#[derive(Drop)]
pub struct LocalPool {
    segs: Vec<Seg>,
    most: usize,
}

impl Model for LocalPool {
    ghost use Rattle.std.specs.Prelude.{◌≤◌, All, length, vec_capacity};
    ghost use Rattle.mbuf_chain.specs.Emptied.{IsEmptied};
    ghost use Rattle.mbuf_pool.specs.Stock.{Stock};

    ghost Value = { Stock };

    ghost view = { λ p. record { left = length p.segs.items; most = p.most } };

    ghost invariant = { λ p. All IsEmptied p.segs.items × (length p.segs.items ≤ p.most) × (p.most ≤ vec_capacity p.segs) };
}

impl LocalPool {
    /// A pool of `n` segments.
    pub fn open(alloc: Global, n: usize) -> Result<LocalPool, OutOfMemory>
        requires { (1 ≤ n) × (n ≤ 16384) }
        ensures { IfOk result (λ p. p ≡ full n) }
    {
        let segs = Vec::with_capacity(alloc, n)?;
        let mut pool = LocalPool { segs, most: n };
        for _ in 0..n {
            pool.give(Seg::new(alloc, 0)?);
        }
        Ok(pool)
    }
}

impl SegStore for LocalPool {
    ghost endless = { ⊥ };

    /// Takes no memory.
    fn take(&mut self) -> Result<Seg, NoSeg>
        ensures emptied { IfOk result IsEmptied }
        ensures endless { ⊥ → ¬ (IsErrOf result Empty) }
        ensures ok { OnOk result (0 < self.old.left) }
        ensures empty { IfErr result (λ e. (e ≡ Empty) × (self.old.left ≡ 0)) }
        ensures left { self.new ≡ taken self.old }
    {
        self.segs.pop().ok_or(NoSeg::Empty)
    }

    /// Keeps the segment, or drops it where there are as many as the pool keeps. Takes no memory.
    fn give(&mut self, seg: Seg)
        requires { IsEmptied seg }
        ensures { self.new ≡ given self.old }
    {
        if self.segs.len() == self.most {
            return;
        }
        if self.segs.push(seg).is_err() {
            unreachable!()
        }
    }
}
