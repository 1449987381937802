//! A list that is walked from its first segment on.
ghost use Rattle.std.specs.Prelude.{◌≡◌, ◌==◌, ◌<◌, ◌≤◌, [], ◌++◌, length, take, drop, slice_index_or};
ghost use Rattle.std.specs.Borrow.{sem};
ghost use Rattle.std.specs.Map.Iter.{ShowsInOrder, deref};
ghost use Rattle.seg_list.specs.Walking.{LendsFirst};

use crate::{MAX_SEGS, Seg, SegIter, SegList};
use std::marker::Model;

/// The segments of a list, those that are done and the rest. It goes from one to the next in a step, wherever it is, and takes
/// no memory.
#[derive(Drop)]
pub struct Walk {
    done: SegList,
    rest: SegList,
}

impl Model for Walk {
    ghost use Rattle.std.specs.Prelude.{◌+◌, ◌≤◌, length};
    ghost use Rattle.seg_list.specs.Buffer.{Walked};
    ghost use Rattle.seg_list.specs.declared.list.TheConstants.{MAX_SEGS};

    ghost Value = { Walked };

    ghost view = { λ w. record { done = w.done; rest = w.rest } };

    ghost invariant = { λ w. length w.done + length w.rest ≤ MAX_SEGS };
}

impl Walk {
    // Behind `done`, which is empty.
    pub(crate) fn over(done: SegList, rest: SegList) -> Walk
        requires { (length done ≡ 0) × (length rest ≤ MAX_SEGS) }
        ensures { result ≡ record { done = done; rest = rest } }
    {
        Walk { done, rest }
    }

    /// Whether all segments are done.
    pub fn is_done(&self) -> bool
        ensures { result ≡ (length self.now.rest == 0) }
    {
        self.rest.is_empty()
    }

    /// The first segment of the rest.
    pub fn first(&self) -> &Seg
        requires { 0 < length self.now.rest }
        ensures { result.now ≡ slice_index_or self.now.rest 0 result.now }
    {
        self.rest.get(0)
    }

    /// Lends the first segment of the rest to be changed.
    pub fn first_mut(&mut self) -> &mut Seg
        requires { 0 < length self.old.rest }
        ensures* writes_back { sem 𝓛 (LendsFirst self.entry result) }
        ensures value { result.now ≡ slice_index_or self.old.rest 0 result.now }
    {
        self.rest.first_mut()
    }

    /// The first segment of the rest is done.
    pub fn pass(&mut self)
        requires { 0 < length self.old.rest }
        ensures { self.new ≡ record { done = self.old.done ++ take 1 self.old.rest; rest = drop 1 self.old.rest } }
    {
        self.done.take_first(&mut self.rest);
    }

    /// The segments of the rest in order.
    pub fn rest(&self) -> SegIter<'_>
        ensures rest { result ≡ self.now.rest }
        ensures runs { ShowsInOrder (deref {X = Seg}) }
    {
        self.rest.iter()
    }

    /// All segments, in their order.
    pub fn into_segs(self) -> SegList
        ensures { result ≡ self.done ++ self.rest }
    {
        let Walk { done, rest } = self;
        done.followed_by(rest)
    }
}
