//! Nodes that own the next one, with a pointer to the last.
ghost use Rattle.std.specs.Prelude.{◌≡◌, ◌+◌, ◌-◌, ◌<◌, slice_index_or, List, [], ◌∷◌, ◌++◌, length};
ghost use Rattle.std.specs.declared.alloc.Global.{Global};
ghost use Rattle.seg_list.specs.Links.{Link, IsChained, place_of};
ghost use Rattle.seg_list.specs.Ownership.{heap_token, chain_owns, chain_lent};

use crate::node::{Loose, Node};
use std::alloc::Global;
use std::marker::{Model, Send, Sync};

/// `links` says of each node where it lies, and its `next`, and `heap` gave their memory. With no node, `head` and `tail` mean nothing.
pub(crate) struct Chain<T> {
    head: *mut Node<T>,
    tail: *mut Node<T>,
    ghost items: { List T },
    ghost links: { List Link },
    ghost heap: { Global },
    ghost alike: { length links ≡ length items },
    ghost chained: { ∥ IsChained head tail links ∥₁ },
}

impl<T> Model for Chain<T> {
    ghost also_owns = { λ c. chain_owns T.row (heap_token c.heap) c.links c.items };

    ghost also_shares = { λ c _ κ. chain_lent T.row c.links c.items κ };
}

// A chain is the only owner of its nodes, and hands out an element only as a reference to the chain allows.
unsafe impl<T: Send> Send for Chain<T> {}

unsafe impl<T: Sync> Sync for Chain<T> {}

/// Frees nothing: who drops a chain takes each node out first.
impl<T> Drop for Chain<T> {
    fn drop(self) {
        let Chain { head: _, tail: _ } = self;
    }
}

/// Where a node lies. It owns nothing.
pub(crate) struct Place<T> {
    ptr: *mut Node<T>,
}

impl<T> Clone for Place<T> {
    fn clone(&self) -> Result<Place<T>, std::alloc::AllocError> {
        Ok(*self)
    }
}

impl<T> Copy for Place<T> {}

impl<T> Chain<T> {
    ghost use Rattle.std.specs.Borrow.{sem};
    ghost use Rattle.seg_list.specs.ElemLending.{LendsElem};

    /// A chain of one node.
    pub(crate) fn single(node: Loose<Node<T>, Global>) -> Chain<T>
        ensures { result.items ≡ node.value.elem ∷ [] }
    {
        let Loose { at, alloc: _ } = node;
        Chain { head: at, tail: at }
    }

    /// The first node, and the rest.
    pub(crate) fn behead(self, alloc: Global) -> (Loose<Node<T>, Global>, Chain<T>)
        requires { 0 < length self.items }
        ensures { self.items ≡ result.0.value.elem ∷ result.1.items }
    {
        let Chain { head, tail } = self;
        let next = unsafe { (*head).next };
        (Loose { at: head, alloc }, Chain { head: next, tail })
    }

    /// Links the nodes of `other` in behind the last.
    pub(crate) fn join(self, other: Chain<T>) -> Chain<T>
        requires { (0 < length self.items) × (0 < length other.items) }
        ensures { result.items ≡ self.items ++ other.items }
    {
        let Chain { head, tail } = self;
        let Chain {
            head: next,
            tail: last,
        } = other;
        unsafe {
            (*tail).next = next;
        }
        Chain { head, tail: last }
    }

    /// Where the first node lies.
    pub(crate) fn first(&self) -> Place<T>
        ensures { 0 < length self.now.items → result.ptr ≡ place_of self.now.links 0 }
    {
        Place { ptr: self.head }
    }

    /// Where the last node lies.
    pub(crate) fn last(&self) -> Place<T>
        ensures { 0 < length self.now.items → result.ptr ≡ place_of self.now.links (length self.now.items - 1) }
    {
        Place { ptr: self.tail }
    }

    /// Where the node behind the one at `at` lies, which is number `i`.
    pub(crate) fn after(&self, at: Place<T>, i: usize) -> Place<T>
        requires { (i < length self.now.items) × (at.ptr ≡ place_of self.now.links i) }
        ensures { i + 1 < length self.now.items → result.ptr ≡ place_of self.now.links (i + 1) }
    {
        let ptr = at.ptr;
        let next = unsafe { (*ptr).next };
        Place { ptr: next }
    }

    /// The node at `at`, which is number `i`.
    pub(crate) fn node(&self, at: Place<T>, i: usize) -> &Node<T>
        requires { (i < length self.now.items) × (at.ptr ≡ place_of self.now.links i) }
        ensures { result.now.elem ≡ slice_index_or self.now.items i result.now.elem }
    {
        let ptr = at.ptr;
        unsafe { &*ptr }
    }

    /// Lends the element of the node at `at`, which is number `i`.
    pub(crate) fn elem_mut(&mut self, at: Place<T>, i: usize) -> &mut T
        requires { (i < length self.old.items) × (at.ptr ≡ place_of self.old.links i) }
        ensures* writes_back { sem 𝓛 (LendsElem T.row self.entry i result) }
        ensures value { result.now ≡ slice_index_or self.old.items i result.now }
    {
        let ptr = at.ptr;
        unsafe { &mut (*ptr).elem }
    }

    // Where node `i` lies, by a walk from the first.
    fn place(&self, i: usize) -> Place<T>
        requires { i < length self.now.items }
        ensures { result.ptr ≡ place_of self.now.links i }
    {
        let mut at = self.first();
        for k in 0..i {
            at = self.after(at, k);
        }
        at
    }

    /// Element `i`, by a walk from the first.
    pub(crate) fn get(&self, i: usize) -> &T
        requires { i < length self.now.items }
        ensures { result.now ≡ slice_index_or self.now.items i result.now }
    {
        &self.node(self.place(i), i).elem
    }

    /// Lends element `i`, by a walk from the first.
    pub(crate) fn get_mut(&mut self, i: usize) -> &mut T
        requires { i < length self.old.items }
        ensures* writes_back { sem 𝓛 (LendsElem T.row self.entry i result) }
        ensures value { result.now ≡ slice_index_or self.old.items i result.now }
    {
        let at = self.place(i);
        self.elem_mut(at, i)
    }
}
