//! Records are begun, until a burst is full or the capture ends.
ghost use Rattle.std.specs.Prelude.{◌≡◌, ◌<◌, ◌≤◌, ◌+◌, ◌^◌, ◌⊎◌, ◌++◌, ◌∷◌, List, [], length, IfOk, IfErr, OnOk, OnErr, IfSome, Some, None, Err};
ghost use Rattle.crypto_model.specs.Counts.{Rose};
ghost use Rattle.capture_io.specs.Capture.{record_bytes, view};
ghost use Rattle.capture_io.specs.Limits.{IsSmall};
ghost use Rattle.capture_io.specs.Pieces.{AppendsPart};
ghost use Rattle.packet_plan.specs.Answered.{Answered};
ghost use Rattle.packet_flow.specs.Counts.{counts_of};
ghost use Rattle.packet_flow.specs.Passage.{Before, EndsAs, IsEarly, IsFilled, IsUnderway, Outside};
ghost use Rattle.capture_io.specs.declared.header.ReadStop.{ReadStop};
ghost use Rattle.packet_flow.specs.Filling.{AddsSlot, StopsFlow, left_ahead, left_to_begin};
ghost use Rattle.packet_flow.specs.Packet.{numbered_view, with_given};
ghost use Rattle.packet_flow.specs.Reads.{Moves};
ghost use Rattle.packet_flow.specs.Window.{IsInRange};

use crate::counts::Counts;
use crate::flow::FlowEnd;
use crate::passage::Passage;
use crate::slots::Slots;
use crate::window::{Packet, Window};
use capture_io::{Header, ReadStop, Record, Sink, Source, WriteFault, write_record};
use crypto_model::OutOfMemory;
use crypto_op::{Card, OpBurst};
use mbuf_chain::{SegStore, give_back};
use packet_plan::{Fate, ReadyPlan};
use std::alloc::Global;

// Begins a packet: it gets the next slot and, where it needs one, an operation of the burst, whose number is how many
// were made before.
fn begin<P: SegStore>(
    alloc: Global,
    store: &mut P,
    plan: &ReadyPlan,
    header: &Header,
    packet: Packet,
    made: &mut u64,
    slots: &mut Slots,
    burst: &mut OpBurst<Card>,
) -> Result<(), OutOfMemory>
    requires endless { P.endless }
    requires small { IsSmall packet.rec }
    requires few { made.old < 2 ^ 32 }
    requires room { length burst.old.ops < burst.old.cap }
    ensures { OnOk result (AddsSlot plan.now header.now.big (numbered_view packet) made.old made.new slots.old slots.new burst.old burst.new) }
{
    let work = plan.begin(alloc, store, packet.number, *made, packet.rec)?;
    if let Some(op) = slots.push(alloc, store, header, packet.number, work)? {
        burst.push(op);
        *made += 1;
    }
    Ok(())
}

// Writes a record as it was read, and gives its segments to the store.
fn pass_on<P: SegStore, K: Sink>(
    out: &mut K,
    store: &mut P,
    header: &Header,
    rec: Record,
    counts: &mut Counts,
) -> Result<(), WriteFault>
    requires few { (answers : List Answered) × (counts.old ≡ counts_of answers) × (length answers < 2 ^ 32) }
    ensures written { K.tells → OnOk result (K.written out.new ≡ K.written out.old ++ record_bytes header.now.big (view rec)) }
    ensures cut { K.tells → OnErr result (AppendsPart (K.written out.old) (K.written out.new) (record_bytes header.now.big (view rec))) }
    ensures counted { (answers : List Answered) (a : Answered) → counts.old ≡ counts_of answers → a.fate ≡ Fate.Passed
        → OnOk result (counts.new ≡ counts_of (answers ++ a ∷ [])) }
    ensures stays { OnErr result (counts.new ≡ counts.old) }
    ensures later { K.faults out.old ≤ K.faults out.new }
    ensures cause { OnErr result (Rose (K.faults out.old) (K.faults out.new)) }
    ensures steady { K.steady → OnOk result (K.faults out.new ≡ K.faults out.old) }
{
    write_record(out, header, &rec)?;
    counts.add(Fate::Passed);
    give_back(store, rec.packet.into_segs());
    Ok(())
}

// A stop at which packets that were read before are still worked on, or an end of the flow.
fn stopped(stop: ReadStop) -> Result<Option<Packet>, FlowEnd>
    ensures { StopsFlow stop result }
{
    match stop {
        ReadStop::Fault => Err(FlowEnd::Stopped(ReadStop::Fault)),
        ReadStop::OutOfMemory => Err(FlowEnd::OutOfMemory),
        _ => Ok(None),
    }
}

// The first packet that waits. Where none does, one record is read and taken, or a window of `size`, of which none is
// taken yet.
fn next_packet<S: Source, P: SegStore>(
    alloc: Global,
    size: usize,
    header: &Header,
    src: &mut S,
    store: &mut P,
    window: &mut Window,
) -> Result<Option<Packet>, FlowEnd>
    requires endless { P.endless }
    requires size { 1 ≤ size }
    requires some { (0 < length window.old.waiting) ⊎ (window.old.stop ≡ None) }
    ensures moves { IfOk result (λ p. Moves header.now.big S.tells (S.left src.old) (S.left src.new) window.old (with_given p window.new)) }
    ensures taken { IfOk result (λ p. IfSome p (λ p. IsSmall p.rec × (window.new.next ≡ p.number + 1) × IsInRange window.new)) }
    ensures smaller { OnOk result (left_ahead window.new < left_ahead window.old) }
    ensures later { S.faults src.old ≤ S.faults src.new }
    ensures cause { result ≡ Err (FlowEnd.Stopped ReadStop.Fault) → Rose (S.faults src.old) (S.faults src.new) }
    ensures early { IfErr result IsEarly }
    ensures never { ¬ (result ≡ Err FlowEnd.Stalled) }
    ensures unwritten { ¬ (result ≡ Err FlowEnd.WriteFault) }
{
    if let Some(packet) = window.take() {
        return Ok(Some(packet));
    }
    if size > 1 {
        return match window.read(alloc, src, header, store, size) {
            Some(stop) => stopped(stop),
            None => Ok(None),
        };
    }
    match window.read_one(alloc, src, header, store) {
        Ok(packet) => Ok(Some(packet)),
        Err(stop) => stopped(stop),
    }
}

// Takes the next packet and begins it, unless a window is read first. One that passes while no other waits to be written is
// written at once.
fn advance<S: Source, P: SegStore, K: Sink>(
    alloc: Global,
    plan: &ReadyPlan,
    size: usize,
    header: &Header,
    src: &mut S,
    store: &mut P,
    out: &mut K,
    passage: &mut Passage,
) -> Result<(), FlowEnd>
    requires endless { P.endless }
    requires size { 1 ≤ size }
    requires underway { (b : Before) × (o : Outside) × (b.big ≡ header.now.big) × (o.left ≡ S.left src.old) × (o.written ≡ K.written out.old)
        × IsUnderway plan.now b S.tells K.tells passage.old o }
    requires room { length passage.old.burst.ops < passage.old.burst.cap }
    requires some { (0 < length passage.old.window.waiting) ⊎ (passage.old.window.stop ≡ None) }
    ensures underway { (b : Before) (o : Outside) → b.big ≡ header.now.big → o.left ≡ S.left src.old → o.written ≡ K.written out.old
        → IsUnderway plan.now b S.tells K.tells passage.old o
        → OnOk result (IsUnderway plan.now b S.tells K.tells passage.new (record o { left = S.left src.new; written = K.written out.new })) }
    ensures ends { (b : Before) (o : Outside) → b.big ≡ header.now.big → o.left ≡ S.left src.old → o.written ≡ K.written out.old
        → IsUnderway plan.now b S.tells K.tells passage.old o
        → IfErr result (λ end. EndsAs plan.now b S.tells K.tells end passage.new.counts (record o { left = S.left src.new; written = K.written out.new })) }
    ensures smaller { OnOk result (left_to_begin passage.new < left_to_begin passage.old) }
    ensures read_later { S.faults src.old ≤ S.faults src.new }
    ensures read_cause { result ≡ Err (FlowEnd.Stopped ReadStop.Fault) → Rose (S.faults src.old) (S.faults src.new) }
    ensures write_later { K.faults out.old ≤ K.faults out.new }
    ensures write_cause { result ≡ Err FlowEnd.WriteFault → Rose (K.faults out.old) (K.faults out.new) }
    ensures write_steady { K.steady → ¬ (result ≡ Err FlowEnd.WriteFault) → K.faults out.new ≡ K.faults out.old }
    ensures early { IfErr result IsEarly }
    ensures never { ¬ (result ≡ Err FlowEnd.Stalled) }
{
    let Some(packet) = next_packet(alloc, size, header, src, store, &mut passage.window)? else {
        return Ok(());
    };
    if passage.slots.is_empty() && plan.lets_pass(&packet.rec.packet) {
        pass_on(out, store, header, packet.rec, &mut passage.counts)?;
        return Ok(());
    }
    begin(
        alloc,
        store,
        plan,
        header,
        packet,
        &mut passage.made,
        &mut passage.slots,
        &mut passage.burst,
    )?;
    passage
        .slots
        .write_ready(out, store, header, &mut passage.counts)?;
    Ok(())
}

/// Where the burst is empty, begins records until it is full or the capture ends, which are read in windows of `size`.
/// They are written as soon as they are ready and all before them are written.
pub(crate) fn fill<S: Source, P: SegStore, K: Sink>(
    alloc: Global,
    plan: &ReadyPlan,
    size: usize,
    header: &Header,
    src: &mut S,
    store: &mut P,
    out: &mut K,
    passage: &mut Passage,
) -> Result<(), FlowEnd>
    requires endless { P.endless }
    requires size { 1 ≤ size }
    requires underway { (b : Before) × (o : Outside) × (b.big ≡ header.now.big) × (o.left ≡ S.left src.old) × (o.written ≡ K.written out.old)
        × IsUnderway plan.now b S.tells K.tells passage.old o }
    ensures underway { (b : Before) (o : Outside) → b.big ≡ header.now.big → o.left ≡ S.left src.old → o.written ≡ K.written out.old
        → IsUnderway plan.now b S.tells K.tells passage.old o
        → OnOk result (IsUnderway plan.now b S.tells K.tells passage.new (record o { left = S.left src.new; written = K.written out.new })) }
    ensures ends { (b : Before) (o : Outside) → b.big ≡ header.now.big → o.left ≡ S.left src.old → o.written ≡ K.written out.old
        → IsUnderway plan.now b S.tells K.tells passage.old o
        → IfErr result (λ end. EndsAs plan.now b S.tells K.tells end passage.new.counts (record o { left = S.left src.new; written = K.written out.new })) }
    ensures filled { OnOk result (IsFilled passage.old passage.new) }
    ensures full { OnOk result ((0 < length passage.new.burst.ops)
        ⊎ ((passage.new.window.waiting ≡ []) × (stop : ReadStop) × (passage.new.window.stop ≡ Some stop))) }
    ensures read_later { S.faults src.old ≤ S.faults src.new }
    ensures read_cause { result ≡ Err (FlowEnd.Stopped ReadStop.Fault) → Rose (S.faults src.old) (S.faults src.new) }
    ensures write_later { K.faults out.old ≤ K.faults out.new }
    ensures write_cause { result ≡ Err FlowEnd.WriteFault → Rose (K.faults out.old) (K.faults out.new) }
    ensures write_steady { K.steady → ¬ (result ≡ Err FlowEnd.WriteFault) → K.faults out.new ≡ K.faults out.old }
    ensures early { IfErr result IsEarly }
    ensures never { ¬ (result ≡ Err FlowEnd.Stalled) }
{
    if passage.burst.len() > 0 {
        return Ok(());
    }
    while passage.burst.room() > 0
        && (!passage.window.is_empty() || passage.window.stop().is_none())
    {
        advance(alloc, plan, size, header, src, store, out, passage)?;
    }
    Ok(())
}
