//! One packet, in segments.
ghost use Rattle.std.specs.Prelude.{◌≡◌, ℕ, List, ◌==◌, ◌↔◌, ◌+◌, ◌-◌, ◌%◌, ◌<◌, ◌≤◌, [], ◌∷◌, ◌++◌, length, take, drop, replicate, slice_index_or, IfOk, IfErr, IsErr, OnOk, OnErr};
ghost use Rattle.std.specs.Borrow.{sem};
ghost use Rattle.std.specs.Result.{IsErrOf};
ghost use Rattle.crypto_model.specs.Chain.{laid_at};
ghost use Rattle.std.specs.List.{All};
ghost use Rattle.seg_list.specs.Buffer.{Buffer, IsWhole};
ghost use Rattle.mbuf_chain.specs.Chain.{packet_of, with_packet};
ghost use Rattle.std.specs.Map.Iter.{ShowsInOrder, deref};
ghost use Rattle.mbuf_chain.specs.Kept.{EndsIn};
ghost use Rattle.mbuf_chain.specs.Pieces.{joined, pieces_of};
ghost use Rattle.mbuf_chain.specs.Piece.{LiesAt, piece_len};
ghost use Rattle.mbuf_chain.specs.Lending.{LendsPiece};
ghost use Rattle.mbuf_chain.specs.Ends.{cut_back, cut_front, cut_to, first_of, last_of, on_first, on_last, zeros_before, zeros_behind};
ghost use Rattle.mbuf_chain.specs.Refusals.{seg_of};

use crate::cursor::Cursor;
use crate::piece_iter::{PieceIter, copy_out};
use crate::work::{Work, take_in};
use crate::{AddRefused, NoHeadroom, NoTailroom, TooManySegs, TooShort};
use seg_list::{MAX_SEGS, SEG_SIZE, Seg, SegList, Steps};
use std::alloc::Global;
use std::marker::{Brand, Model};
use std::sync::ledger::{Blank, Ledger};

/// A packet of 1 to [`MAX_SEGS`] segments, which contracts see as the list of their buffers. Its bytes are the
/// data of its segments, one after another.
#[derive(Drop)]
pub struct Mbuf {
    segs: SegList,
    len: usize,
}

impl Model for Mbuf {
    ghost use Rattle.std.specs.Prelude.{List};
    ghost use Rattle.seg_list.specs.Buffer.{Buffer};
    ghost use Rattle.mbuf_chain.specs.Kept.{IsKept};

    ghost Value = { List Buffer };

    ghost view = { λ m. m.segs };

    ghost invariant = { λ m. IsKept m.segs m.len };
}

impl Mbuf {
    /// A packet of one segment, which is handed back where memory is wanting.
    pub fn new(alloc: Global, seg: Seg) -> Result<Mbuf, Seg>
        ensures made { IfOk result (λ m. m ≡ seg ∷ []) }
        ensures refused { IfErr result (λ s. s ≡ seg) }
    {
        let len = seg.len();
        let Ok(mut segs) = SegList::new(alloc) else {
            return Err(seg);
        };
        match segs.push_back(seg) {
            Ok(()) => Ok(Mbuf { segs, len }),
            Err(seg) => Err(seg),
        }
    }

    /// A packet of all these segments.
    pub fn from_segs(segs: SegList) -> Mbuf
        requires { 0 < length segs }
        ensures { result ≡ segs }
    {
        let len = bytes_in(&segs);
        Mbuf { segs, len }
    }

    /// The segments in order.
    pub fn into_segs(self) -> SegList
        ensures { result ≡ self }
    {
        let Mbuf { segs, len: _ } = self;
        segs
    }

    /// The segments in order.
    pub fn segs(&self) -> &SegList
        ensures { result.now ≡ self.now }
    {
        &self.segs
    }

    /// How many segments there are.
    pub fn seg_count(&self) -> usize
        ensures value { result ≡ length self.now }
        ensures range { (0 < result) × (result ≤ MAX_SEGS) }
    {
        self.segs.len()
    }

    /// The number of the packet's bytes.
    pub fn len(&self) -> usize
        ensures value { result ≡ length (packet_of self.now) }
        ensures most { result ≤ 524288 }
    {
        self.len
    }

    /// Whether the packet has no bytes.
    pub fn is_empty(&self) -> bool
        ensures { result ≡ (length (packet_of self.now) == 0) }
    {
        self.len == 0
    }

    /// Puts `n` zero bytes behind the last segment's data.
    pub fn append(&mut self, n: usize) -> Result<(), NoTailroom>
        ensures which { IsErr result ↔ length (last_of self.old).after < n }
        ensures grown { OnOk result (self.new ≡ on_last (zeros_behind n) self.old) }
        ensures packet { OnOk result (packet_of self.new ≡ packet_of self.old ++ replicate n 0) }
        ensures refused { OnErr result (self.new ≡ self.old) }
    {
        let seg = self.segs.last_mut();
        let off = seg.off();
        let len = seg.len();
        if SEG_SIZE - off - len < n {
            return Err(NoTailroom);
        }
        seg.set(off, len + n);
        zero(seg.part_mut(len, n));
        self.len += n;
        Ok(())
    }

    /// Puts `n` zero bytes before the first segment's data.
    pub fn prepend(&mut self, n: usize) -> Result<(), NoHeadroom>
        ensures which { IsErr result ↔ length (first_of self.old).before < n }
        ensures grown { OnOk result (self.new ≡ on_first (zeros_before n) self.old) }
        ensures packet { OnOk result (packet_of self.new ≡ replicate n 0 ++ packet_of self.old) }
        ensures refused { OnErr result (self.new ≡ self.old) }
    {
        let seg = self.segs.first_mut();
        let off = seg.off();
        let len = seg.len();
        if off < n {
            return Err(NoHeadroom);
        }
        seg.set(off - n, len + n);
        zero(seg.part_mut(0, n));
        self.len += n;
        Ok(())
    }

    /// Cuts `n` bytes at the front of the first segment.
    pub fn adj(&mut self, n: usize) -> Result<(), TooShort>
        ensures which { IsErr result ↔ length (first_of self.old).body < n }
        ensures cut { OnOk result (self.new ≡ on_first (cut_front n) self.old) }
        ensures packet { OnOk result (packet_of self.new ≡ drop n (packet_of self.old)) }
        ensures refused { OnErr result (self.new ≡ self.old) }
    {
        let seg = self.segs.first_mut();
        let len = seg.len();
        if len < n {
            return Err(TooShort);
        }
        let off = seg.off();
        seg.set(off + n, len - n);
        self.len -= n;
        Ok(())
    }

    /// Cuts `n` bytes at the end of the last segment.
    pub fn trim(&mut self, n: usize) -> Result<(), TooShort>
        ensures which { IsErr result ↔ length (last_of self.old).body < n }
        ensures cut { OnOk result (self.new ≡ on_last (cut_back n) self.old) }
        ensures packet { OnOk result (packet_of self.new ≡ take (length (packet_of self.old) - n) (packet_of self.old)) }
        ensures refused { OnErr result (self.new ≡ self.old) }
    {
        let seg = self.segs.last_mut();
        let len = seg.len();
        if len < n {
            return Err(TooShort);
        }
        let off = seg.off();
        seg.set(off, len - n);
        self.len -= n;
        Ok(())
    }

    /// Cuts the packet to its first `len` bytes. The segments that then hold none of them are dropped,
    /// but for the first one.
    pub fn truncate(&mut self, len: usize)
        requires { len ≤ length (packet_of self.old) }
        ensures cut { self.new ≡ cut_to len self.old }
        ensures packet { packet_of self.new ≡ take len (packet_of self.old) }
    {
        let (before, last) = end_of(&self.segs, len);
        self.segs.truncate(before + 1);
        let seg = self.segs.last_mut();
        let off = seg.off();
        seg.set(off, last);
        self.len = len;
    }

    /// Links the segments of `other` behind these. Takes no memory.
    pub fn chain(&mut self, other: Mbuf) -> Result<(), TooManySegs>
        ensures which { IsErr result ↔ MAX_SEGS < length self.old + length other }
        ensures linked { OnOk result (self.new ≡ self.old ++ other) }
        ensures packet { OnOk result (packet_of self.new ≡ packet_of self.old ++ packet_of other) }
        ensures refused { IfErr result (λ e. (e.0 ≡ other) × (self.new ≡ self.old)) }
    {
        if MAX_SEGS < self.segs.len() + other.segs.len() {
            return Err(TooManySegs(other));
        }
        let Mbuf { segs, len } = other;
        counted::<Brand>(&mut self.segs, segs, Blank::new(1));
        self.len += len;
        Ok(())
    }

    /// Links one segment behind these.
    pub fn add_seg(&mut self, seg: Seg) -> Result<(), AddRefused>
        ensures which { IsErrOf result (AddRefused.TooManySegs seg) ↔ length self.old ≡ MAX_SEGS }
        ensures added { OnOk result (self.new ≡ self.old ++ seg ∷ []) }
        ensures packet { OnOk result (packet_of self.new ≡ packet_of self.old ++ seg.body) }
        ensures refused { IfErr result (λ e. (seg_of e ≡ seg) × (self.new ≡ self.old)) }
    {
        if self.segs.len() == MAX_SEGS {
            return Err(AddRefused::TooManySegs(seg));
        }
        let len = seg.len();
        match self.segs.push_back(seg) {
            Ok(()) => {
                self.len += len;
                Ok(())
            }
            Err(seg) => Err(AddRefused::OutOfMemory(seg)),
        }
    }

    /// Copies the packet's bytes from `off` on into all of `out`.
    pub fn read_at(&self, off: usize, out: &mut [u8])
        requires { off + length out.old ≤ length (packet_of self.now) }
        ensures { out.new ≡ take (length out.old) (drop off (packet_of self.now)) }
    {
        copy_out(self.pieces(off, out.len()), out);
    }

    /// The pieces of a range in order, each within one segment and of at least one byte.
    pub fn pieces(&self, off: usize, len: usize) -> PieceIter<'_>
        requires { off + len ≤ length (packet_of self.now) }
        ensures all { joined result ≡ take len (drop off (packet_of self.now)) }
        ensures each { result ≡ pieces_of off len self.now }
        ensures runs { ShowsInOrder (deref {X = List ℕ}) }
    {
        PieceIter::of(self.segs.iter(), off, len)
    }

    /// Copies all of `bytes` into the packet from `off` on.
    pub fn write_at(&mut self, off: usize, bytes: &[u8])
        requires { off + length bytes.now ≤ length (packet_of self.old) }
        ensures { self.new ≡ with_packet self.old (laid_at off bytes.now (packet_of self.old)) }
    {
        let mut cursor = Cursor::new(&mut self.segs, off);
        cursor.write(bytes);
        self.segs = cursor.into_segs();
    }

    /// Works on a range in place, and goes from one segment to the next. A unit that lies in several is gathered.
    pub fn work_on<W: Work>(&mut self, off: usize, len: usize, work: &mut W)
        requires within { off + len ≤ length (packet_of self.old) }
        requires whole { len % W.unit ≡ 0 }
        ensures { (begun : W.Begun) → W.holds begun work.old []
            → W.holds begun work.new (take len (drop off (packet_of self.old)))
            × (self.new ≡ with_packet self.old (laid_at off (W.made begun (take len (drop off (packet_of self.old)))) (packet_of self.old))) }
    {
        let mut cursor = Cursor::new(&mut self.segs, off);
        let mut done = 0;
        while done < len {
            done += take_in(work, &mut cursor, len - done);
        }
        self.segs = cursor.into_segs();
    }

    /// Lends the longest front of the range that lies in one segment.
    pub fn piece(&self, off: usize, len: usize) -> &[u8]
        requires within { off + len ≤ length (packet_of self.now) }
        requires some { 0 < len }
        ensures value { result.now ≡ take (piece_len off len self.now) (drop off (packet_of self.now)) }
        ensures size { length result.now ≡ piece_len off len self.now }
        ensures range { (0 < length result.now) × (length result.now ≤ len) }
    {
        let (i, at) = find(&self.segs, off);
        let data = self.segs.get(i).data();
        let n = len.min(data.len() - at);
        &data[at..at + n]
    }

    /// Lends the longest front of the range that lies in one segment, to be written.
    pub fn piece_mut(&mut self, off: usize, len: usize) -> &mut [u8]
        requires within { off + len ≤ length (packet_of self.old) }
        requires some { 0 < len }
        ensures* writes_back { sem 𝓛 (LendsPiece self.entry off result) }
        ensures value { result.now ≡ take (piece_len off len self.old) (drop off (packet_of self.old)) }
        ensures size { length result.now ≡ piece_len off len self.old }
        ensures range { (0 < length result.now) × (length result.now ≤ len) }
    {
        let (i, at) = find(&self.segs, off);
        let seg = self.segs.get_mut(i);
        let n = len.min(seg.len() - at);
        seg.part_mut(at, n)
    }
}

// Appends under a counter of its own.
fn counted<L: Ledger>(segs: &mut SegList, other: SegList, blank: Blank)
    requires room { length segs.old + length other ≤ MAX_SEGS }
    requires name { blank.name ≡ L.name }
    requires parts { blank.parts ≡ L.parts }
    requires some { 0 < L.parts }
    ensures { segs.new ≡ segs.old ++ other }
{
    segs.append(other, &mut Steps::<L>::start(blank));
}

fn zero(piece: &mut [u8])
    ensures { piece.new ≡ replicate (length piece.old) 0 }
{
    for byte in piece {
        *byte = 0;
    }
}

// How many bytes the segments have.
fn bytes_in(segs: &SegList) -> usize
    ensures bytes { result ≡ length (packet_of segs.now) }
    ensures whole { All IsWhole segs.now }
    ensures most { length segs.now ≤ MAX_SEGS }
{
    let mut all = 0usize;
    let _most = segs.len();
    for seg in segs.iter() {
        all += seg.len();
    }
    all
}

// The segment that holds the byte at `off`, and the byte's place in its data.
fn find(segs: &SegList, off: usize) -> (usize, usize)
    requires { off < length (packet_of segs.now) }
    ensures within { result.0 < length segs.now }
    ensures lies { (b : Buffer) → slice_index_or segs.now result.0 b ≡ b → LiesAt segs.now off result.0 result.1 b }
{
    let mut at = off;
    let mut i = 0;
    let _most = segs.len();
    for seg in segs.iter() {
        let n = seg.len();
        if at < n {
            return (i, at);
        }
        at -= n;
        i += 1;
    }
    unreachable!()
}

// The segment in which the first `len` bytes end, and how many of them lie in it.
fn end_of(segs: &SegList, len: usize) -> (usize, usize)
    requires some { 0 < length segs.now }
    requires within { len ≤ length (packet_of segs.now) }
    ensures { EndsIn segs.now len result.0 result.1 }
{
    let mut left = len;
    let mut before = 0;
    let _most = segs.len();
    for seg in segs.iter() {
        let n = seg.len();
        if left <= n {
            return (before, left);
        }
        left -= n;
        before += 1;
    }
    unreachable!()
}
