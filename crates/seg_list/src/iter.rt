//! The segments of a list, one after another.
ghost use Rattle.std.specs.Prelude.{◌≡◌, ◌+◌, ◌<◌, ◌≤◌, [], length, drop};
ghost use Rattle.std.specs.Iterator.{at_most};
ghost use Rattle.std.specs.Map.Iter.{TakesFirst, deref};
ghost use Rattle.seg_list.specs.Links.{place_of};

use crate::chain::{Chain, Place};
use crate::{MAX_SEGS, Seg};
use std::marker::Model;

/// Gives each segment of a list in order. It is seen as the list of those that are left.
#[derive(Drop)]
pub struct SegIter<'a> {
    next: Option<Spot<'a>>,
}

impl<'a> Model for SegIter<'a> {
    ghost use Rattle.std.specs.Prelude.{List};
    ghost use Rattle.std.specs.Option.{option_to_list};
    ghost use Rattle.seg_list.specs.Buffer.{Buffer};
    ghost use Rattle.seg_list.specs.Listed.{from_spot};

    ghost Value = { List Buffer };

    ghost view = { λ i. from_spot i.next };
}

// Node `i` of a chain, which lies at `at`. There are `left` nodes from it on.
#[derive(Drop)]
pub(crate) struct Spot<'a> {
    chain: &'a Chain<Seg>,
    at: Place<Seg>,
    i: usize,
    left: usize,
    ghost here: { at.ptr ≡ place_of chain.now.links i },
    ghost rest: { i + left ≡ length chain.now.items },
    ghost some: { 0 < left },
    ghost most: { i + left ≤ 256 },
}

impl<'a> SegIter<'a> {
    pub(crate) fn none() -> SegIter<'a>
        ensures { result ≡ [] }
    {
        SegIter { next: None }
    }

    // The elements of a chain of `len` nodes.
    pub(crate) fn over(chain: &'a Chain<Seg>, len: usize) -> SegIter<'a>
        requires { (len ≡ length chain.now.items) × (0 < len) × (len ≤ MAX_SEGS) }
        ensures { result ≡ chain.now.items }
    {
        let spot = Spot {
            chain,
            at: chain.first(),
            i: 0,
            left: len,
        };
        SegIter { next: Some(spot) }
    }
}

impl<'a> Iterator for SegIter<'a> {
    type Item = &'a Seg;

    ghost next_gives = { TakesFirst deref };

    ghost remaining = { λ s. at_most (length s) };

    fn next(&mut self) -> Option<&'a Seg> {
        let Spot { chain, at, i, left } = self.next.take()?;
        if 1 < left {
            self.next = Some(Spot {
                chain,
                at: chain.after(at, i),
                i: i + 1,
                left: left - 1,
            });
        }
        Some(&chain.node(at, i).elem)
    }
}
