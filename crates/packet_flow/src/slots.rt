//! The places of packets that are begun and not written.
ghost use Rattle.std.specs.Prelude.{◌≡◌, ◌==◌, ◌<◌, ◌≤◌, ◌+◌, ◌^◌, [], ◌∷◌, ◌++◌, List, ℕ, map, length, drop, slice_get, Bool, Option, Some, None, Ok, IfOk, OnOk, OnErr};
ghost use Rattle.std.specs.List.{All};
ghost use Rattle.std.specs.Option.{IfSome, option_to_list};
ghost use Rattle.crypto_model.specs.Counts.{Rose};
ghost use Rattle.crypto_op.specs.declared.spec.Card.{Card};
ghost use Rattle.crypto_op.specs.Op.{Entry, IsDone, entry_of};
ghost use Rattle.session_file.specs.declared.plan.Plan.{Plan};
ghost use Rattle.packet_plan.specs.Answered.{Answered};
ghost use Rattle.packet_plan.specs.Asked.{sessions_of};
ghost use Rattle.packet_flow.specs.Counts.{counts_of};
ghost use Rattle.packet_flow.specs.Numbered.{Numbered, RisesFrom};
ghost use Rattle.packet_flow.specs.Flowed.{answer_bytes};
ghost use Rattle.packet_flow.specs.Laid.{laid_out, seats_if, seats_of, slot_number};
ghost use Rattle.packet_flow.specs.Seats.{AllIn, IsIn, IsReadyFirst, Ready, WaitsAtFront};
ghost use Rattle.packet_flow.specs.Slots.{StandFor, ops_of, seat_for};
ghost use Rattle.packet_plan.specs.Work.{written_view};
ghost use Rattle.capture_io.specs.Pieces.{AppendsPart};
ghost use Rattle.packet_flow.specs.Writing.{Appends, CutsNext, HasWritten};

use crate::counts::Counts;
use crate::run::Run;
use capture_io::{Header, Sink, WriteFault, write_all, write_record};
use crypto_model::OutOfMemory;
use crypto_op::{Card, Op, OpBurst};
use mbuf_chain::{SegStore, give_back};
use packet_plan::{Fate, Kept, ReadyPlan, Work, Written};
use std::alloc::Global;
use std::collections::VecDeque;
use std::marker::Model;

/// A packet that waits for its operation, or packets that are ready to be written: one as a record, or a run as bytes.
#[derive(Drop)]
pub enum Slot {
    Open { number: u32, kept: Kept },
    Ready { number: u32, written: Written },
    Waits(Run),
}

impl Slot {
    // The number of the first packet.
    fn number(&self) -> u32
        ensures { result ≡ slot_number self.now }
    {
        match self {
            Slot::Open { number, .. } => *number,
            Slot::Ready { number, .. } => *number,
            Slot::Waits(run) => run.number(),
        }
    }

    // Whether it is written at the next chance, where none is open before it.
    fn is_record(&self) -> bool {
        matches!(self, Slot::Ready { .. })
    }
}

/// The places of packets in the order of their numbers, which rise and need not follow each other. Answers come in any
/// order, and records are written in this one. A packet that is ready behind an open one is kept as the bytes that will
/// be written, which join those before it, and its segments go back to the store at once. So three slots for five packets:
///
/// ```text
/// open 3    waits 4 5 6    open 7
/// ```
#[derive(Drop)]
pub struct Slots {
    slots: VecDeque<Slot>,
}

impl Model for Slots {
    ghost use Rattle.std.specs.Prelude.{List};
    ghost use Rattle.packet_flow.specs.Laid.{laid_out};
    ghost use Rattle.packet_flow.specs.Seats.{Seat};

    ghost Value = { List Seat };

    ghost view = { λ s. laid_out s.slots.items };
}

// The place of the slot with this number: where numbers follow each other, it is as far behind the first.
fn place_of(slots: &VecDeque<Slot>, number: u32) -> usize
    requires rising { RisesFrom 0 (map slot_number slots.now.items) }
    requires there { (i : ℕ) × (slice_get (map slot_number slots.now.items) i ≡ Some number) }
    ensures { slice_get (map slot_number slots.now.items) result ≡ Some number }
{
    let guess = (number - slots[0].number()) as usize;
    if guess < slots.len() && slots[guess].number() == number {
        return guess;
    }
    search_place(slots, number)
}

// The same by halving.
fn search_place(slots: &VecDeque<Slot>, number: u32) -> usize
    requires rising { RisesFrom 0 (map slot_number slots.now.items) }
    requires there { (i : ℕ) × (slice_get (map slot_number slots.now.items) i ≡ Some number) }
    ensures { slice_get (map slot_number slots.now.items) result ≡ Some number }
{
    let mut low = 0;
    let mut high = slots.len();
    while high - low > 1 {
        let middle = low + (high - low) / 2;
        if slots[middle].number() <= number {
            low = middle;
        } else {
            high = middle;
        }
    }
    low
}

// The slot of a packet that is ready behind an open one: as bytes, or as the record where memory is wanting.
fn kept_back<P: SegStore>(
    alloc: Global,
    store: &mut P,
    header: &Header,
    number: u32,
    written: Written,
) -> Slot
    ensures { (order : Option Bool) × (seats_of result ≡ Ready number (written_view written) order ∷ [])
        × IsIn header.now.big (Ready number (written_view written) order) }
{
    match Run::of(alloc, header, number, &written) {
        Ok(run) => {
            give_back(store, written.rec.packet.into_segs());
            Slot::Waits(run)
        }
        Err(OutOfMemory) => Slot::Ready { number, written },
    }
}

// The slot of an answered packet: as a record, where it is written next.
fn answered_slot<P: SegStore>(
    alloc: Global,
    store: &mut P,
    header: &Header,
    number: u32,
    written: Written,
    next: bool,
) -> Slot
    ensures { (order : Option Bool) × (seats_of result ≡ Ready number (written_view written) order ∷ [])
        × IsIn header.now.big (Ready number (written_view written) order) }
{
    if next {
        Slot::Ready { number, written }
    } else {
        kept_back(alloc, store, header, number, written)
    }
}

// The slot of a packet that was begun, and the operation that was made for it.
fn begun_slot<P: SegStore>(
    alloc: Global,
    store: &mut P,
    header: &Header,
    number: u32,
    work: Work,
    next: bool,
) -> (Slot, Option<Op<Card>>)
    ensures slot { (order : Option Bool) × (seats_of result.0 ≡ seat_for number work order ∷ []) × IsIn header.now.big (seat_for number work order) }
    ensures op { option_to_list result.1 ≡ ops_of work }
{
    match work {
        Work::Ready(written) => (
            answered_slot(alloc, store, header, number, written, next),
            None,
        ),
        Work::Needs(kept, op) => (Slot::Open { number, kept }, Some(op)),
    }
}

// Puts a slot behind the others: a run joins the run before it.
fn put_behind(slots: &mut VecDeque<Slot>, slot: Slot) -> Result<(), OutOfMemory>
    ensures put { OnOk result (laid_out slots.new.items ≡ laid_out slots.old.items ++ seats_of slot) }
    ensures stays { OnErr result (laid_out slots.new.items ≡ laid_out slots.old.items) }
{
    let Some(last) = slots.pop_back() else {
        slots.push_back(slot)?;
        return Ok(());
    };
    let (last, more) = joined(last, slot);
    slots.push_back_reserved(last);
    match more {
        Some(more) => {
            slots.push_back(more)?;
            Ok(())
        }
        None => Ok(()),
    }
}

// Two slots as one, where both are runs and together not too long.
fn joined(last: Slot, slot: Slot) -> (Slot, Option<Slot>)
    ensures same { seats_of last ++ seats_of slot ≡ seats_of result.0 ++ seats_if result.1 }
    ensures stays { IfSome result.1 (λ s. seats_of result.0 ≡ seats_of last) }
{
    match (last, slot) {
        (Slot::Waits(mut last), Slot::Waits(run)) => match last.join(run) {
            Ok(()) => (Slot::Waits(last), None),
            Err(run) => (Slot::Waits(last), Some(Slot::Waits(run))),
        },
        (last, slot) => (last, Some(slot)),
    }
}

// Takes the first packet off, and gives its record where that is kept.
fn take_first(slots: &mut VecDeque<Slot>) -> Option<Written>
    ensures { laid_out slots.new.items ≡ drop 1 (laid_out slots.old.items) }
{
    match slots.pop_front()? {
        Slot::Open { .. } => None,
        Slot::Ready { written, .. } => Some(written),
        Slot::Waits(run) => match run.behind() {
            Some(run) => {
                slots.push_front_reserved(Slot::Waits(run));
                None
            }
            None => None,
        },
    }
}

// The same, and the record's segments go back to the store.
fn drop_first<P: SegStore>(slots: &mut VecDeque<Slot>, store: &mut P)
    ensures { laid_out slots.new.items ≡ drop 1 (laid_out slots.old.items) }
{
    if let Some(written) = take_first(slots) {
        give_back(store, written.rec.packet.into_segs());
    }
}

// Writes the first packet of a slot, unless it waits for its operation, and says what became of it.
fn write_first<K: Sink>(
    out: &mut K,
    header: &Header,
    slot: &Slot,
) -> Result<Option<Fate>, WriteFault>
    requires order { AllIn header.now.big (seats_of slot.now) }
    ensures wrote { IfOk result (λ told. IfSome told (λ fate. (f : IsReadyFirst (seats_of slot.now)) × (fate ≡ f.answer.fate)
        × (K.tells → K.written out.new ≡ K.written out.old ++ answer_bytes header.now.big f.answer))) }
    ensures none { result ≡ Ok None → WaitsAtFront (seats_of slot.now) × (out.new ≡ out.old) }
    ensures fault { OnErr result ((f : IsReadyFirst (seats_of slot.now))
        × (K.tells → AppendsPart (K.written out.old) (K.written out.new) (answer_bytes header.now.big f.answer))) }
    ensures later { K.faults out.old ≤ K.faults out.new }
    ensures cause { OnErr result (Rose (K.faults out.old) (K.faults out.new)) }
    ensures steady { K.steady → OnOk result (K.faults out.new ≡ K.faults out.old) }
{
    match slot {
        Slot::Open { .. } => Ok(None),
        Slot::Ready { written, .. } => {
            write_record(out, header, &written.rec)?;
            Ok(Some(written.fate))
        }
        Slot::Waits(run) => {
            let (record, fate) = run.first();
            write_all(out, record)?;
            Ok(Some(fate))
        }
    }
}

impl Slots {
    pub fn new(alloc: Global) -> Slots
        ensures { result ≡ [] }
    {
        Slots {
            slots: VecDeque::new(alloc),
        }
    }

    /// Whether there is none.
    pub fn is_empty(&self) -> bool
        ensures { result ≡ (length self.now == 0) }
    {
        self.slots.is_empty()
    }

    /// Gives a packet that was begun the next slot, and hands on the operation that was made for it, if one was.
    pub fn push<P: SegStore>(
        &mut self,
        alloc: Global,
        store: &mut P,
        header: &Header,
        number: u32,
        work: Work,
    ) -> Result<Option<Op<Card>>, OutOfMemory>
        ensures slot { IfOk result (λ op. (order : Option Bool) × (self.new ≡ self.old ++ seat_for number work order ∷ [])
            × IsIn header.now.big (seat_for number work order)) }
        ensures op { IfOk result (λ op. option_to_list op ≡ ops_of work) }
        ensures stays { OnErr result (self.new ≡ self.old) }
    {
        let next = self.slots.is_empty();
        let (slot, op) = begun_slot(alloc, store, header, number, work, next);
        put_behind(&mut self.slots, slot)?;
        Ok(op)
    }

    /// Puts the answer of an operation into the slot that waits for it, by the packet's number on its card.
    pub fn settle<P: SegStore>(
        &mut self,
        alloc: Global,
        store: &mut P,
        header: &Header,
        plan: &ReadyPlan,
        op: Op<Card>,
    )
        requires done { IsDone (sessions_of plan.now) op }
        requires stand { (ps : List Numbered) × (rest : List (Entry Card)) × StandFor plan.now ps self.old (entry_of op ∷ rest) }
        ensures stand { (ps : List Numbered) (rest : List (Entry Card)) → StandFor plan.now ps self.old (entry_of op ∷ rest)
            → StandFor plan.now ps self.new rest }
        ensures order { AllIn header.now.big self.old → AllIn header.now.big self.new }
    {
        let number = op.cargo().packet;
        let place = place_of(&self.slots, number);
        let Slot::Open { kept, .. } = &self.slots[place] else {
            unreachable!()
        };
        let written = plan.finish(kept, op);
        let next = place == 0 || self.slots[place - 1].is_record();
        self.slots[place] = answered_slot(alloc, store, header, number, written, next);
    }

    /// Puts the answers of all these operations into their slots.
    pub fn settle_all<P: SegStore>(
        &mut self,
        alloc: Global,
        store: &mut P,
        header: &Header,
        plan: &ReadyPlan,
        back: &mut OpBurst<Card>,
    )
        requires done { All (IsDone (sessions_of plan.now)) back.old.ops }
        requires stand { (ps : List Numbered) × (rest : List (Entry Card)) × StandFor plan.now ps self.old (map entry_of back.old.ops ++ rest) }
        ensures stand { (ps : List Numbered) (rest : List (Entry Card)) → StandFor plan.now ps self.old (map entry_of back.old.ops ++ rest)
            → StandFor plan.now ps self.new rest }
        ensures order { AllIn header.now.big self.old → AllIn header.now.big self.new }
        ensures emptied { back.new ≡ record { cap = back.old.cap; ops = [] } }
    {
        while let Some(op) = back.pop() {
            self.settle(alloc, store, header, plan, op);
        }
    }

    /// Writes the records at the front that are ready, counts them, and gives their segments to the store. One that can't
    /// be written whole stays where it is.
    pub fn write_ready<K: Sink, P: SegStore>(
        &mut self,
        out: &mut K,
        store: &mut P,
        header: &Header,
        counts: &mut Counts,
    ) -> Result<(), WriteFault>
        requires few { (answers : List Answered) × (counts.old ≡ counts_of answers) × (length answers + length self.old < 2 ^ 32) }
        requires order { AllIn header.now.big self.old }
        ensures written { (plan : Plan) (ps : List Numbered) (entries : List (Entry Card)) → StandFor plan ps self.old entries
            → OnOk result (HasWritten plan ps entries self.new counts.old counts.new
            (Appends plan header.now.big K.tells (K.written out.old) (K.written out.new))) }
        ensures cut { (plan : Plan) (ps : List Numbered) (entries : List (Entry Card)) → StandFor plan ps self.old entries
            → OnErr result (HasWritten plan ps entries self.new counts.old counts.new
            (CutsNext plan header.now.big K.tells (K.written out.old) (K.written out.new))) }
        ensures order { AllIn header.now.big self.new }
        ensures waits { OnOk result (WaitsAtFront self.new) }
        ensures later { K.faults out.old ≤ K.faults out.new }
        ensures cause { OnErr result (Rose (K.faults out.old) (K.faults out.new)) }
        ensures steady { K.steady → OnOk result (K.faults out.new ≡ K.faults out.old) }
    {
        while let Some(slot) = self.slots.front() {
            let Some(fate) = write_first(out, header, slot)? else {
                return Ok(());
            };
            counts.add(fate);
            drop_first(&mut self.slots, store);
        }
        Ok(())
    }
}
