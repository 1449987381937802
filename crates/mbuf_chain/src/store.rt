//! Where the segments of packets come from.
ghost use Rattle.std.specs.Prelude.{◌≡◌, [], replicate, IfOk};
ghost use Rattle.std.specs.Result.{IsErrOf};
ghost use Rattle.mbuf_chain.specs.Emptied.{IsEmptied};
ghost use Rattle.mbuf_chain.specs.declared.store.NoSeg.TheVariants.{Empty};

use crypto_model::OutOfMemory;
use seg_list::{SEG_SIZE, Seg, SegList};
use std::alloc::Global;
use thiserror::Error;

/// Why a store gave no segment.
#[derive(Clone, Copy, Debug, PartialEq, Eq, Error)]
pub enum NoSeg {
    #[error("no segment is left")]
    Empty,
    #[error("out of memory")]
    OutOfMemory,
}

/// Gives segments, and takes them back. One that is `endless` never answers `Empty`.
pub trait SegStore {
    ghost endless: { Type 0 };

    /// A segment of offset 0 with no data. What its other bytes are isn't said.
    fn take(&mut self) -> Result<Seg, NoSeg>
        ensures emptied { IfOk result IsEmptied }
        ensures endless { endless → ¬ (IsErrOf result Empty) };

    /// Takes a segment back that has no data.
    fn give(&mut self, seg: Seg)
        requires { IsEmptied seg };
}

/// A segment of a store that is never empty.
pub fn take_seg<P: SegStore>(store: &mut P) -> Result<Seg, OutOfMemory>
    requires { P.endless }
    ensures { IfOk result IsEmptied }
{
    match store.take() {
        Ok(seg) => Ok(seg),
        Err(NoSeg::OutOfMemory) => Err(OutOfMemory),
        Err(NoSeg::Empty) => unreachable!(),
    }
}

/// Gives a segment back without its data.
pub fn give_seg<P: SegStore>(store: &mut P, mut seg: Seg) {
    seg.set(0, 0);
    store.give(seg);
}

/// Gives the segments of a packet back without their data.
pub fn give_back<P: SegStore>(store: &mut P, mut segs: SegList) {
    while let Some(seg) = segs.pop_front() {
        give_seg(store, seg);
    }
}

/// Makes each segment anew, and drops what is given back.
#[derive(Drop)]
pub struct FreshSegs {
    alloc: Global,
}

impl FreshSegs {
    pub fn new(alloc: Global) -> FreshSegs {
        FreshSegs { alloc }
    }
}

impl SegStore for FreshSegs {
    ghost endless = { Unit {0} };

    /// Its buffer is all zeros.
    fn take(&mut self) -> Result<Seg, NoSeg>
        ensures emptied { IfOk result IsEmptied }
        ensures endless { Unit {0} → ¬ (IsErrOf result Empty) }
        ensures fresh { IfOk result (λ s. s ≡ record { before = []; body = []; after = replicate SEG_SIZE 0 }) }
    {
        match Seg::new(self.alloc, 0) {
            Ok(seg) => Ok(seg),
            Err(_) => Err(NoSeg::OutOfMemory),
        }
    }

    fn give(&mut self, seg: Seg)
        requires { IsEmptied seg }
    {
        drop(seg);
    }
}
