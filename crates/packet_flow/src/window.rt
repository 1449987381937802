//! Packets that were read and are not begun.
ghost use Rattle.std.specs.Prelude.{◌≡◌, ◌≤◌, ◌<◌, ◌+◌, ◌*◌, ◌^◌, ◌++◌, List, ℕ, [], length, map, IfSome, Some, None, Err, IfOk, OnOk, OnErr, ◌==◌};
ghost use Rattle.std.specs.List.{All};
ghost use Rattle.crypto_model.specs.Counts.{Rose};
ghost use Rattle.capture_io.specs.Capture.{Rec, view};
ghost use Rattle.capture_io.specs.Limits.{IsPlaced, IsSmall};
ghost use Rattle.packet_flow.specs.Packet.{given_of, put_back, stop_of, with_given};
ghost use Rattle.packet_flow.specs.Reads.{GoesOn, HasRead};
ghost use Rattle.packet_flow.specs.Window.{IsInRange, fresh_window, views};

use capture_io::{Header, Place, ReadStop, Record, Source, read_record};
use mbuf_chain::SegStore;
use std::alloc::Global;
use std::collections::VecDeque;
use std::marker::Model;

/// A record with the number of its packet in the capture, which counts from 0.
#[derive(Drop)]
pub struct Packet {
    pub number: u32,
    pub rec: Record,
}

/// Packets of a capture that were read and are not taken yet, and where its next record is read.
#[derive(Drop)]
pub struct Window {
    // the number of the first that waits
    next: u32,
    waiting: VecDeque<Record>,
    place: Place,
    stop: Option<ReadStop>,
}

impl Model for Window {
    ghost use Rattle.packet_flow.specs.Window.{Ahead, IsWellPlaced, views};

    ghost Value = { Ahead };

    ghost view = { λ w. record { next = w.next; waiting = views w.waiting.items; place = w.place; stop = w.stop } };

    ghost invariant = { λ w. IsWellPlaced w.place w.waiting.items w.next };
}

// Reads at most `size` records behind those that wait, and says why it stopped, if it did.
fn read_behind<S: Source, P: SegStore>(
    alloc: Global,
    src: &mut S,
    header: &Header,
    store: &mut P,
    size: usize,
    place: &mut Place,
    waiting: &mut VecDeque<Record>,
) -> Option<ReadStop>
    requires endless { P.endless }
    requires place { IsPlaced place.old }
    requires range { place.old.records < 2 ^ 32 }
    requires small { All IsSmall waiting.old.items }
    ensures read { S.tells → (bytes : List ℕ) (given : List Rec) → HasRead header.now.big bytes (given ++ views waiting.old.items) place.old (S.left src.old)
        → GoesOn header.now.big bytes (given ++ views waiting.new.items) place.new (S.left src.new) result }
    ensures ended { S.tells → result ≡ Some ReadStop.End → S.left src.new ≡ [] }
    ensures place { IsPlaced place.new }
    ensures range { place.new.records < 2 ^ 32 }
    ensures small { All IsSmall waiting.new.items }
    ensures behind { (more : List Rec) × (views waiting.new.items ≡ views waiting.old.items ++ more) × (length more ≤ size)
        × (result ≡ None → length more ≡ size) }
    ensures count { place.old.records + length waiting.new.items ≤ place.new.records + length waiting.old.items }
    ensures later { S.faults src.old ≤ S.faults src.new }
    ensures cause { result ≡ Some ReadStop.Fault → Rose (S.faults src.old) (S.faults src.new) }
{
    for _n in 0..size {
        match read_record(alloc, src, header, place, store) {
            Ok(rec) => {
                let Ok(()) = waiting.push_back(rec) else {
                    return Some(ReadStop::OutOfMemory);
                };
            }
            Err(stop) => return Some(stop),
        }
    }
    None
}

impl Window {
    /// Nothing is read yet of a capture whose header was.
    pub fn new(alloc: Global) -> Window
        ensures { result ≡ fresh_window }
    {
        Window {
            next: 0,
            waiting: VecDeque::new(alloc),
            place: Place { at: 24, records: 0 },
            stop: None,
        }
    }

    /// Whether none waits.
    pub fn is_empty(&self) -> bool
        ensures { result ≡ (length self.now.waiting == 0) }
    {
        self.waiting.is_empty()
    }

    /// Why no more records are read, if so.
    pub fn stop(&self) -> Option<ReadStop>
        ensures { result ≡ self.now.stop }
    {
        self.stop
    }

    /// Reads at most `size` records behind those that wait, with segments of `store`, and says why it stopped, if it
    /// did. From then on no more are read. A record that there is no memory to keep is lost, and nothing is read behind it.
    pub fn read<S: Source, P: SegStore>(
        &mut self,
        alloc: Global,
        src: &mut S,
        header: &Header,
        store: &mut P,
        size: usize,
    ) -> Option<ReadStop>
        requires endless { P.endless }
        requires goes { self.old.stop ≡ None }
        ensures read { S.tells → (bytes : List ℕ) (given : List Rec) → HasRead header.now.big bytes (given ++ self.old.waiting) self.old.place (S.left src.old)
            → GoesOn header.now.big bytes (given ++ self.new.waiting) self.new.place (S.left src.new) result }
        ensures stop { self.new.stop ≡ result }
        ensures ended { S.tells → result ≡ Some ReadStop.End → S.left src.new ≡ [] }
        ensures next { self.new.next ≡ self.old.next }
        ensures behind { (more : List Rec) × (self.new.waiting ≡ self.old.waiting ++ more) × (length more ≤ size) × (result ≡ None → length more ≡ size) }
        ensures count { self.old.place.records + length self.new.waiting ≤ self.new.place.records + length self.old.waiting }
        ensures range { IsInRange self.new }
        ensures later { S.faults src.old ≤ S.faults src.new }
        ensures cause { result ≡ Some ReadStop.Fault → Rose (S.faults src.old) (S.faults src.new) }
    {
        let stop = read_behind(
            alloc,
            src,
            header,
            store,
            size,
            &mut self.place,
            &mut self.waiting,
        );
        self.stop = stop;
        stop
    }

    /// Reads the next record, where none waits, and says why there is none, if so. From then on no more are read.
    pub fn read_one<S: Source, P: SegStore>(
        &mut self,
        alloc: Global,
        src: &mut S,
        header: &Header,
        store: &mut P,
    ) -> Result<Packet, ReadStop>
        requires endless { P.endless }
        requires goes { self.old.stop ≡ None }
        requires none { self.old.waiting ≡ [] }
        ensures read { S.tells → (bytes : List ℕ) (given : List Rec) → HasRead header.now.big bytes (given ++ self.old.waiting) self.old.place (S.left src.old)
            → GoesOn header.now.big bytes (given ++ (with_given (given_of result) self.new).waiting) self.new.place (S.left src.new) (stop_of result) }
        ensures stop { self.new.stop ≡ stop_of result }
        ensures ended { S.tells → result ≡ Err ReadStop.End → S.left src.new ≡ [] }
        ensures next { (with_given (given_of result) self.new).next ≡ self.old.next }
        ensures after { IfOk result (λ p. self.new.next ≡ p.number + 1) }
        ensures waiting { self.new.waiting ≡ [] }
        ensures small { IfOk result (λ p. IsSmall p.rec) }
        ensures more { OnOk result (self.new.place.records ≡ self.old.place.records + 1) }
        ensures stays { OnErr result (self.new.place ≡ self.old.place) }
        ensures range { IsInRange (with_given (given_of result) self.new) }
        ensures later { S.faults src.old ≤ S.faults src.new }
        ensures cause { result ≡ Err ReadStop.Fault → Rose (S.faults src.old) (S.faults src.new) }
    {
        match read_record(alloc, src, header, &mut self.place, store) {
            Ok(rec) => {
                let number = self.next;
                self.next += 1;
                Ok(Packet { number, rec })
            }
            Err(stop) => {
                self.stop = Some(stop);
                Err(stop)
            }
        }
    }

    /// Takes the first that waits.
    pub fn take(&mut self) -> Option<Packet>
        ensures given { IfSome result (λ p. (self.old ≡ put_back p self.new) × (self.new.next ≡ p.number + 1)) }
        ensures small { IfSome result (λ p. IsSmall p.rec) }
        ensures none { result ≡ None → (self.new ≡ self.old) × (self.old.waiting ≡ []) }
        ensures range { IsInRange self.new }
    {
        let rec = self.waiting.pop_front()?;
        let number = self.next;
        self.next += 1;
        Some(Packet { number, rec })
    }
}
