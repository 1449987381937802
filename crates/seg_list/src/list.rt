//! A list of segments, as nodes that own the next one.
ghost use Rattle.std.specs.Prelude.{◌≡◌, ◌==◌, ◌+◌, ◌-◌, ◌<◌, ◌≤◌, [], ◌∷◌, ◌++◌, length, take, drop, slice_index_or, IfOk, IfErr, ◌↔◌, IsNone};
ghost use Rattle.std.specs.Option.{option_to_list};
ghost use Rattle.std.specs.Borrow.{sem};
ghost use Rattle.std.specs.Map.Iter.{ShowsInOrder, deref};
ghost use Rattle.seg_list.specs.Lending.{LendsSeg};
ghost use Rattle.seg_list.specs.Listed.{items_of, IsFilled};

use crate::chain::Chain;
use crate::node::{Loose, Node};
use crate::{Seg, SegIter, Steps, Walk};
use crypto_model::OutOfMemory;
use std::alloc::Global;
use std::marker::{Brand, Model};
use std::mem::{replace, swap};
use std::ptr;
use std::sync::ledger::{Blank, Ledger};

/// The most segments that a list has.
pub const MAX_SEGS: usize = 256;

/// At most [`MAX_SEGS`] segments. A list may be sent to another thread.
pub struct SegList {
    chain: Option<Chain<Seg>>,
    len: usize,
    alloc: Global,
}

impl Model for SegList {
    ghost use Rattle.std.specs.Prelude.{◌≡◌, ◌≤◌, List, length};
    ghost use Rattle.seg_list.specs.Buffer.{Buffer};
    ghost use Rattle.seg_list.specs.Listed.{items_of, IsFilled};
    ghost use Rattle.seg_list.specs.declared.list.TheConstants.{MAX_SEGS};

    ghost Value = { List Buffer };

    ghost view = { λ l. items_of l.chain };

    ghost invariant = { λ l. (l.len ≡ length (items_of l.chain)) × (l.len ≤ MAX_SEGS) × IsFilled l.chain };
}

impl Drop for SegList {
    fn drop(self) {
        let SegList { chain, len, alloc } = self;
        let Some(mut chain) = chain else {
            return;
        };
        for _ in 0..len {
            let (node, rest) = chain.behead(alloc);
            let _ = node.into_box();
            chain = rest;
        }
    }
}

impl SegList {
    /// An empty list. Takes no memory.
    pub fn new(alloc: Global) -> Result<SegList, OutOfMemory>
        ensures { IfOk result (λ l. l ≡ []) }
    {
        Ok(SegList::empty(alloc))
    }

    fn empty(alloc: Global) -> SegList
        ensures { result ≡ [] }
    {
        SegList {
            chain: None,
            len: 0,
            alloc,
        }
    }

    /// How many segments there are.
    pub fn len(&self) -> usize
        ensures value { result ≡ length self.now }
        ensures most { length self.now ≤ MAX_SEGS }
    {
        self.len
    }

    /// Whether there is none.
    pub fn is_empty(&self) -> bool
        ensures { result ≡ (length self.now == 0) }
    {
        self.len == 0
    }

    /// Puts a segment last, or hands it back where memory is wanting.
    pub fn push_back(&mut self, seg: Seg) -> Result<(), Seg>
        requires { length self.old < MAX_SEGS }
        ensures pushed { IfOk result (λ _. self.new ≡ self.old ++ seg ∷ []) }
        ensures refused { IfErr result (λ s. (s ≡ seg) × (self.new ≡ self.old)) }
    {
        let node = Node {
            next: ptr::null_mut(),
            elem: seg,
        };
        match Box::new(self.alloc, node) {
            Ok(node) => {
                self.link(Loose::of(node));
                Ok(())
            }
            Err(failed) => {
                let Node { next: _, elem } = failed.value;
                Err(elem)
            }
        }
    }

    /// Takes the first segment. Takes no memory.
    pub fn pop_front(&mut self) -> Option<Seg>
        ensures first { self.old ≡ option_to_list result ++ self.new }
        ensures none { IsNone result ↔ self.old ≡ [] }
    {
        if self.len == 0 {
            return None;
        }
        Some(self.take_seg())
    }

    /// Takes the last segment, by a walk from the first. Takes no memory.
    pub fn pop_back(&mut self) -> Option<Seg>
        ensures last { self.old ≡ self.new ++ option_to_list result }
        ensures none { IsNone result ↔ self.old ≡ [] }
    {
        if self.len == 0 {
            return None;
        }
        let mut last = self.split(self.len - 1);
        swap(self, &mut last);
        Some(last.take_seg())
    }

    /// Moves all segments of `other` behind these, in at most four steps whatever the lengths. Takes no memory.
    pub fn append<L: Ledger>(&mut self, other: SegList, steps: &mut Steps<L>)
        requires { length self.old + length other ≤ MAX_SEGS }
        ensures list { self.new ≡ self.old ++ other }
        ensures cost { steps.new ≤ steps.old + 4 }
    {
        let SegList {
            chain,
            len,
            alloc: _,
        } = other;
        if let Some(more) = chain {
            self.chain = Some(joined(self.chain.take(), more, steps));
            steps.tick();
            self.len += len;
        }
    }

    /// Segment `i`, counted from 0, by a walk from the first.
    pub fn get(&self, i: usize) -> &Seg
        requires { i < length self.now }
        ensures { result.now ≡ slice_index_or self.now i result.now }
    {
        match &self.chain {
            Some(chain) => chain.get(i),
            None => unreachable!(),
        }
    }

    /// Lends segment `i` to be changed, by a walk from the first.
    pub fn get_mut(&mut self, i: usize) -> &mut Seg
        requires { i < length self.old }
        ensures* writes_back { sem 𝓛 (LendsSeg self.entry i result) }
        ensures value { result.now ≡ slice_index_or self.old i result.now }
    {
        match &mut self.chain {
            Some(chain) => chain.get_mut(i),
            None => unreachable!(),
        }
    }

    /// The last segment.
    pub fn last(&self) -> &Seg
        requires { 0 < length self.now }
        ensures { result.now ≡ slice_index_or self.now (length self.now - 1) result.now }
    {
        let last = self.len - 1;
        match &self.chain {
            Some(chain) => &chain.node(chain.last(), last).elem,
            None => unreachable!(),
        }
    }

    /// Lends the first segment to be changed.
    pub fn first_mut(&mut self) -> &mut Seg
        requires { 0 < length self.old }
        ensures* writes_back { sem 𝓛 (LendsSeg self.entry 0 result) }
        ensures value { result.now ≡ slice_index_or self.old 0 result.now }
    {
        match &mut self.chain {
            Some(chain) => {
                let first = chain.first();
                chain.elem_mut(first, 0)
            }
            None => unreachable!(),
        }
    }

    /// Lends the last segment to be changed.
    pub fn last_mut(&mut self) -> &mut Seg
        requires { 0 < length self.old }
        ensures* writes_back { sem 𝓛 (LendsSeg self.entry (length self.old - 1) result) }
        ensures value { result.now ≡ slice_index_or self.old (length self.old - 1) result.now }
    {
        let last = self.len - 1;
        match &mut self.chain {
            Some(chain) => {
                let at = chain.last();
                chain.elem_mut(at, last)
            }
            None => unreachable!(),
        }
    }

    /// Keeps the first `count` segments, and drops those behind them.
    pub fn truncate(&mut self, count: usize)
        ensures { self.new ≡ take count self.old }
    {
        let mut behind = self.split(count);
        swap(self, &mut behind);
    }

    /// Takes all segments out, to be walked. Takes no memory.
    pub fn walk(&mut self) -> Walk
        ensures taken { result ≡ record { done = []; rest = self.old } }
        ensures none { self.new ≡ [] }
    {
        let alloc = self.alloc;
        let segs = replace(self, SegList::empty(alloc));
        Walk::over(SegList::empty(alloc), segs)
    }

    /// The segments in order.
    pub fn iter(&self) -> SegIter<'_>
        ensures rest { result ≡ self.now }
        ensures runs { ShowsInOrder (deref {X = Seg}) }
    {
        match &self.chain {
            Some(chain) => SegIter::over(chain, self.len),
            None => SegIter::none(),
        }
    }

    /// The segments of both lists in order. Takes no memory.
    pub(crate) fn followed_by(self, other: SegList) -> SegList
        requires { length self + length other ≤ MAX_SEGS }
        ensures { result ≡ self ++ other }
    {
        counted::<Brand>(self, other, Blank::new(1))
    }

    // Takes the first node out.
    fn unlink(&mut self) -> Loose<Node<Seg>, Global>
        requires { 0 < length self.old }
        ensures { self.old ≡ result.value.elem ∷ self.new }
    {
        let Some(chain) = self.chain.take() else {
            unreachable!()
        };
        let (node, rest) = chain.behead(self.alloc);
        self.len -= 1;
        if 0 < self.len {
            self.chain = Some(rest);
        }
        node
    }

    // Takes the first segment.
    fn take_seg(&mut self) -> Seg
        requires { 0 < length self.old }
        ensures { self.old ≡ result ∷ self.new }
    {
        let Node { next: _, elem } = Box::into_inner(self.unlink().into_box());
        elem
    }

    // Puts a node last.
    fn link(&mut self, node: Loose<Node<Seg>, Global>)
        requires { length self.old < MAX_SEGS }
        ensures { self.new ≡ self.old ++ node.value.elem ∷ [] }
    {
        let last = Chain::single(node);
        self.chain = match self.chain.take() {
            None => Some(last),
            Some(chain) => Some(chain.join(last)),
        };
        self.len += 1;
    }

    /// Moves the first segment of `rest` behind these.
    pub(crate) fn take_first(&mut self, rest: &mut SegList)
        requires some { 0 < length rest.old }
        requires room { length self.old < MAX_SEGS }
        ensures taken { self.new ≡ self.old ++ take 1 rest.old }
        ensures left { rest.new ≡ drop 1 rest.old }
    {
        self.link(rest.unlink());
    }

    // Takes the first `count` segments out.
    fn split(&mut self, count: usize) -> SegList
        ensures front { result ≡ take count self.old }
        ensures behind { self.new ≡ drop count self.old }
    {
        let count = count.min(self.len);
        let mut front = SegList::empty(self.alloc);
        for _ in 0..count {
            front.take_first(self);
        }
        front
    }
}

// Three steps: the last node's place is read, its link is written, and the last place is written. With no node in front two,
// since the first place and the last are written.
fn joined<L: Ledger>(
    front: Option<Chain<Seg>>,
    back: Chain<Seg>,
    steps: &mut Steps<L>,
) -> Chain<Seg>
    requires { IsFilled front × (0 < length back.items) }
    ensures items { result.items ≡ items_of front ++ back.items }
    ensures cost { steps.new ≤ steps.old + 3 }
{
    steps.tick();
    steps.tick();
    match front {
        None => back,
        Some(front) => {
            steps.tick();
            front.join(back)
        }
    }
}

// Appends under a counter of its own.
fn counted<L: Ledger>(front: SegList, back: SegList, blank: Blank) -> SegList
    requires room { length front + length back ≤ MAX_SEGS }
    requires name { blank.name ≡ L.name }
    requires parts { blank.parts ≡ L.parts }
    requires some { 0 < L.parts }
    ensures { result ≡ front ++ back }
{
    let mut all = front;
    all.append(back, &mut Steps::<L>::start(blank));
    all
}
