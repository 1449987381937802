//! A packet that is walked: a place in it that goes forward, from which bytes are read and written.
ghost use Rattle.std.specs.Prelude.{◌≡◌, ◌+◌, ◌<◌, ◌≤◌, ◌++◌, length, take, drop};
ghost use Rattle.std.specs.Borrow.{sem};
ghost use Rattle.crypto_model.specs.Chain.{laid_at};
ghost use Rattle.mbuf_chain.specs.Chain.{packet_of, with_packet};
ghost use Rattle.mbuf_chain.specs.Piece.{piece_len};
ghost use Rattle.mbuf_chain.specs.Cursors.{Stands, at_of, moved, rewritten};
ghost use Rattle.mbuf_chain.specs.Lending.{LendsHere};

use crate::piece_iter::{PieceIter, copy_out};
use seg_list::{SegList, Walk};
use std::marker::Model;

/// A packet's segments and a place among its bytes. The place lies in the first segment of the walk's rest, or behind all bytes.
#[derive(Drop)]
pub(crate) struct Cursor {
    walk: Walk,
    inside: usize,
}

impl Model for Cursor {
    ghost use Rattle.mbuf_chain.specs.Cursors.{At, Stands, at_of};

    ghost Value = { At };

    ghost view = { λ c. at_of c.walk c.inside };

    ghost invariant = { λ c. Stands c.walk.rest c.inside };
}

// Passes the segments that end before a place in the rest, and gives the place in what is left.
fn settle(walk: &mut Walk, inside: usize) -> usize
    requires { inside ≤ length (packet_of walk.old.rest) }
    ensures same { at_of walk.new result ≡ at_of walk.old inside }
    ensures stands { Stands walk.new.rest result }
{
    let mut inside = inside;
    while !walk.is_done() {
        let len = walk.first().len();
        if inside < len {
            break;
        }
        inside -= len;
        walk.pass();
    }
    inside
}

impl Cursor {
    /// The segments of a list, with the place at `off`. The list is left empty.
    pub(crate) fn new(segs: &mut SegList, off: usize) -> Cursor
        requires { off ≤ length (packet_of segs.old) }
        ensures { result ≡ record { chain = segs.old; at = off } }
    {
        let mut walk = segs.walk();
        let inside = settle(&mut walk, off);
        Cursor { walk, inside }
    }

    /// All segments.
    pub(crate) fn into_segs(self) -> SegList
        ensures { result ≡ self.chain }
    {
        let Cursor { walk, inside: _ } = self;
        walk.into_segs()
    }

    /// Goes forward by `n` bytes, which lie in one segment.
    pub(crate) fn pass(&mut self, n: usize)
        requires some { 0 < n }
        requires within { self.old.at + n ≤ length (packet_of self.old.chain) }
        requires one { piece_len self.old.at n self.old.chain ≡ n }
        ensures { self.new ≡ moved n self.old }
    {
        let _most = self.walk.first().len();
        let inside = self.inside + n;
        self.inside = settle(&mut self.walk, inside);
    }

    /// How many of the next `len` bytes lie in one segment.
    pub(crate) fn piece_len(&self, len: usize) -> usize
        requires within { self.now.at + len ≤ length (packet_of self.now.chain) }
        requires some { 0 < len }
        ensures value { result ≡ piece_len self.now.at len self.now.chain }
        ensures range { (0 < result) × (result ≤ len) }
    {
        len.min(self.walk.first().len() - self.inside)
    }

    /// Lends the next `len` bytes, as far as they lie in one segment, to be written.
    pub(crate) fn piece_mut(&mut self, len: usize) -> &mut [u8]
        requires within { self.old.at + len ≤ length (packet_of self.old.chain) }
        requires some { 0 < len }
        ensures* writes_back { sem 𝓛 (LendsHere self.entry result) }
        ensures value { result.now ≡ take (piece_len self.old.at len self.old.chain) (drop self.old.at (packet_of self.old.chain)) }
        ensures size { length result.now ≡ piece_len self.old.at len self.old.chain }
        ensures range { (0 < length result.now) × (length result.now ≤ len) }
    {
        let inside = self.inside;
        let seg = self.walk.first_mut();
        let n = len.min(seg.len() - inside);
        seg.part_mut(inside, n)
    }

    /// Copies the next bytes into all of `out`, and stays.
    pub(crate) fn read(&self, out: &mut [u8])
        requires { self.now.at + length out.old ≤ length (packet_of self.now.chain) }
        ensures { out.new ≡ take (length out.old) (drop self.now.at (packet_of self.now.chain)) }
    {
        copy_out(PieceIter::of(self.walk.rest(), self.inside, out.len()), out);
    }

    /// Copies all of `bytes` over the next ones, and goes behind them.
    pub(crate) fn write(&mut self, bytes: &[u8])
        requires { self.old.at + length bytes.now ≤ length (packet_of self.old.chain) }
        ensures { self.new ≡ moved (length bytes.now) (rewritten bytes.now self.old) }
    {
        let mut done = 0;
        while done < bytes.len() {
            let piece = self.piece_mut(bytes.len() - done);
            let n = piece.len();
            piece.copy_from_slice(&bytes[done..done + n]);
            self.pass(n);
            done += n;
        }
    }
}
