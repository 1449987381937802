//! A packet is read into segments of a store.
ghost use Rattle.std.specs.Prelude.{◌≡◌, ◌≤◌, ◌<◌, ◌++◌, ℕ, List, [], ◌∷◌, length, IfOk, IfErr, OnOk, IsErrOf};
ghost use Rattle.crypto_model.specs.Counts.{Rose};
ghost use Rattle.seg_list.specs.Buffer.{IsWhole};
ghost use Rattle.mbuf_chain.specs.Chain.{packet_of, shape_of};
ghost use Rattle.capture_io.specs.Capture.{StopsPacket, CanStopPacket};
ghost use Rattle.capture_io.specs.Filled.{filled_shape};

use crate::header::{CaptureCause, ReadStop};
use crate::outside::Source;
use crate::pieces::fill;
use crate::reading::MAX_CAPTURED;
use mbuf_chain::{Mbuf, SegStore, give_back, give_seg, take_seg};
use seg_list::{Seg, SegList};
use std::alloc::Global;

const SEG_SIZE: usize = 2048;

// Fills all of a segment's data, as a part of the record at this place.
fn fill_seg<S: Source>(src: &mut S, seg: &mut Seg, at: u64) -> Result<(), ReadStop>
    ensures found { S.tells → OnOk result (S.left src.old ≡ seg.new.body ++ S.left src.new) }
    ensures whole { IsWhole seg.old }
    ensures stays { OnOk result ((length seg.new.before ≡ length seg.old.before) × (length seg.new.body ≡ length seg.old.body)) }
    ensures stop { S.tells → IfErr result (StopsPacket (length seg.old.body) at (S.left src.old)) }
    ensures taken { S.tells → ((bytes : List ℕ) × (S.left src.old ≡ bytes ++ S.left src.new)) }
    ensures never { IfErr result (CanStopPacket at) }
    ensures later { S.faults src.old ≤ S.faults src.new }
    ensures cause { IsErrOf result ReadStop.Fault → Rose (S.faults src.old) (S.faults src.new) }
{
    let len = seg.len();
    let n = fill(src, seg.data_mut())?;
    if n < len {
        return Err(ReadStop::BadCapture {
            at,
            cause: CaptureCause::ShortData,
        });
    }
    Ok(())
}

// Takes a segment of the store and reads so many bytes into it. Where that stops, the store has it back.
fn read_seg<S: Source, P: SegStore>(
    src: &mut S,
    store: &mut P,
    len: usize,
    at: u64,
) -> Result<Seg, ReadStop>
    requires endless { P.endless }
    requires fits { len ≤ 2048 }
    ensures found { S.tells → IfOk result (λ s. S.left src.old ≡ s.body ++ S.left src.new) }
    ensures shape { IfOk result (λ s. (length s.before ≡ 0) × (length s.body ≡ len)) }
    ensures stop { S.tells → IfErr result (StopsPacket len at (S.left src.old)) }
    ensures taken { S.tells → ((bytes : List ℕ) × (S.left src.old ≡ bytes ++ S.left src.new)) }
    ensures never { IfErr result (CanStopPacket at) }
    ensures later { S.faults src.old ≤ S.faults src.new }
    ensures cause { IsErrOf result ReadStop.Fault → Rose (S.faults src.old) (S.faults src.new) }
{
    let mut seg = take_seg(store)?;
    seg.set(0, len);
    match fill_seg(src, &mut seg, at) {
        Ok(()) => Ok(seg),
        Err(stop) => {
            give_seg(store, seg);
            Err(stop)
        }
    }
}

// Reads so many bytes into one more segment, which is full before it is in the list. Where that stops, the store has it back.
fn push_seg<S: Source, P: SegStore>(
    src: &mut S,
    store: &mut P,
    segs: &mut SegList,
    len: usize,
    at: u64,
) -> Result<(), ReadStop>
    requires endless { P.endless }
    requires room { length segs.old < 256 }
    requires fits { len ≤ 2048 }
    ensures found { S.tells → OnOk result (packet_of segs.old ++ S.left src.old ≡ packet_of segs.new ++ S.left src.new) }
    ensures shape { OnOk result (shape_of segs.new ≡ shape_of segs.old ++ (0, len) ∷ []) }
    ensures stop { S.tells → IfErr result (StopsPacket len at (S.left src.old)) }
    ensures taken { S.tells → ((bytes : List ℕ) × (S.left src.old ≡ bytes ++ S.left src.new)) }
    ensures never { IfErr result (CanStopPacket at) }
    ensures later { S.faults src.old ≤ S.faults src.new }
    ensures cause { IsErrOf result ReadStop.Fault → Rose (S.faults src.old) (S.faults src.new) }
{
    let seg = read_seg(src, store, len, at)?;
    match segs.push_back(seg) {
        Ok(()) => Ok(()),
        Err(seg) => {
            give_seg(store, seg);
            Err(ReadStop::OutOfMemory)
        }
    }
}

// Reads so many bytes into segments that are full but for the last.
fn read_segs<S: Source, P: SegStore>(
    src: &mut S,
    store: &mut P,
    segs: &mut SegList,
    len: usize,
    at: u64,
) -> Result<(), ReadStop>
    requires endless { P.endless }
    requires none { segs.old ≡ [] }
    requires small { len ≤ MAX_CAPTURED }
    ensures found { S.tells → OnOk result (S.left src.old ≡ packet_of segs.new ++ S.left src.new) }
    ensures shape { OnOk result (shape_of segs.new ≡ filled_shape len) }
    ensures stop { S.tells → IfErr result (StopsPacket len at (S.left src.old)) }
    ensures taken { S.tells → ((bytes : List ℕ) × (S.left src.old ≡ bytes ++ S.left src.new)) }
    ensures never { IfErr result (CanStopPacket at) }
    ensures later { S.faults src.old ≤ S.faults src.new }
    ensures cause { IsErrOf result ReadStop.Fault → Rose (S.faults src.old) (S.faults src.new) }
{
    let mut left = len;
    while left > SEG_SIZE {
        push_seg(src, store, segs, SEG_SIZE, at)?;
        left -= SEG_SIZE;
    }
    push_seg(src, store, segs, left, at)
}

/// Reads a packet of this length, of the record at this place.
pub fn read_packet<S: Source, P: SegStore>(
    alloc: Global,
    src: &mut S,
    store: &mut P,
    len: u32,
    at: u64,
) -> Result<Mbuf, ReadStop>
    requires endless { P.endless }
    requires small { len ≤ MAX_CAPTURED }
    ensures found { S.tells → IfOk result (λ m. S.left src.old ≡ packet_of m ++ S.left src.new) }
    ensures length { IfOk result (λ m. length (packet_of m) ≡ len) }
    ensures shape { IfOk result (λ m. shape_of m ≡ filled_shape len) }
    ensures stop { S.tells → IfErr result (StopsPacket len at (S.left src.old)) }
    ensures taken { S.tells → ((bytes : List ℕ) × (S.left src.old ≡ bytes ++ S.left src.new)) }
    ensures never { IfErr result (CanStopPacket at) }
    ensures later { S.faults src.old ≤ S.faults src.new }
    ensures cause { IsErrOf result ReadStop.Fault → Rose (S.faults src.old) (S.faults src.new) }
{
    let mut segs = SegList::new(alloc)?;
    match read_segs(src, store, &mut segs, len as usize, at) {
        Ok(()) => Ok(Mbuf::from_segs(segs)),
        Err(stop) => {
            give_back(store, segs);
            Err(stop)
        }
    }
}
