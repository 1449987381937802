//! A whole capture through an event adapter.
ghost use Rattle.std.specs.Prelude.{◌≡◌, ◌==◌, ◌+◌, ◌*◌, ◌≤◌, [], ℕ, IfErr, IfOk, OnOk, None, Err};
ghost use Rattle.std.specs.Int.{from_bool};
ghost use Rattle.crypto_model.specs.Counts.{capped, Rose};
ghost use Rattle.crypto_op.specs.declared.spec.Card.{Card};
ghost use Rattle.dev_core.specs.Stats.{no_stats};
ghost use Rattle.packet_plan.specs.Asked.{sessions_of};
ghost use Rattle.packet_flow.specs.Forwarding.{ForwardsAs, IsFed, IsForwarding, IsOver, steps_ahead};
ghost use Rattle.packet_flow.specs.Passage.{Before, before};
ghost use Rattle.packet_flow.specs.Turns.{NeverIdle};

use crate::counts::Counts;
use crate::filling::fill;
use crate::flow::{Flow, FlowEnd, PATIENCE};
use crate::passage::Passage;
use crate::route::{Route, put_all};
use capture_io::{Header, ReadStop, Sink, Source};
use crypto_op::Card;
use dev_core::Driver;
use mbuf_chain::SegStore;
use packet_plan::ReadyPlan;
use std::alloc::Global;

// So many events are taken from a port at once.
const BURST: usize = 32;

/// How a flow through an event adapter ended, and its device with what it holds then.
pub struct Forwarded<D> {
    pub flow: Flow,
    pub dev: D,
}

// Where fewer events wait in the port than are taken at once, begins records until as many more operations are made, and puts them in.
fn feed<S: Source, P: SegStore, K: Sink, D: Driver<Card>>(
    alloc: Global,
    plan: &ReadyPlan,
    window: usize,
    header: &Header,
    src: &mut S,
    store: &mut P,
    out: &mut K,
    passage: &mut Passage,
    route: &mut Route<D>,
) -> Result<(), FlowEnd>
    requires endless { P.endless }
    requires window { 1 ≤ window }
    requires forwarding { (b : Before) × (first : D) × (stalled : ℕ) × (b.big ≡ header.now.big)
        × IsForwarding D.Driver plan.now b S.tells K.tells first stalled passage.old route.old (S.left src.old) (K.written out.old) }
    ensures forwarding { (b : Before) (first : D) (stalled : ℕ) → b.big ≡ header.now.big
        → IsForwarding D.Driver plan.now b S.tells K.tells first stalled passage.old route.old (S.left src.old) (K.written out.old)
        → OnOk result (IsForwarding D.Driver plan.now b S.tells K.tells first stalled passage.new route.new (S.left src.new) (K.written out.new)) }
    ensures ends { (b : Before) (first : D) (stalled : ℕ) → b.big ≡ header.now.big
        → IsForwarding D.Driver plan.now b S.tells K.tells first stalled passage.old route.old (S.left src.old) (K.written out.old)
        → IfErr result (λ end. IsOver D.Driver plan.now b S.tells K.tells first stalled end passage.new.counts route.new (K.written out.new)) }
    ensures fed { OnOk result (IsFed passage.new route.new) }
    ensures steps { OnOk result (steps_ahead D.Driver passage.new route.new ≡ steps_ahead D.Driver passage.old route.old) }
    ensures unended { ¬ (result ≡ Err (FlowEnd.Stopped ReadStop.End)) }
    ensures read_later { S.faults src.old ≤ S.faults src.new }
    ensures read_cause { result ≡ Err (FlowEnd.Stopped ReadStop.Fault) → Rose (S.faults src.old) (S.faults src.new) }
    ensures write_later { K.faults out.old ≤ K.faults out.new }
    ensures write_cause { result ≡ Err FlowEnd.WriteFault → Rose (K.faults out.old) (K.faults out.new) }
    ensures write_steady { K.steady → ¬ (result ≡ Err FlowEnd.WriteFault) → K.faults out.new ≡ K.faults out.old }
{
    if route.waiting() >= BURST {
        return Ok(());
    }
    fill(alloc, plan, window, header, src, store, out, passage)?;
    put_all(&mut passage.burst, &mut route.port);
    Ok(())
}

// Feeds the port and lets the adapter run once: how much moved.
fn turn<S: Source, P: SegStore, K: Sink, D: Driver<Card>>(
    alloc: Global,
    plan: &ReadyPlan,
    window: usize,
    header: &Header,
    src: &mut S,
    store: &mut P,
    out: &mut K,
    passage: &mut Passage,
    route: &mut Route<D>,
) -> Result<u64, FlowEnd>
    requires endless { P.endless }
    requires window { 1 ≤ window }
    requires forwarding { (b : Before) × (first : D) × (stalled : ℕ) × (b.big ≡ header.now.big)
        × IsForwarding D.Driver plan.now b S.tells K.tells first stalled passage.old route.old (S.left src.old) (K.written out.old) }
    ensures forwarding { (b : Before) (first : D) (stalled : ℕ) → b.big ≡ header.now.big
        → IsForwarding D.Driver plan.now b S.tells K.tells first stalled passage.old route.old (S.left src.old) (K.written out.old)
        → IfOk result (λ moved. IsForwarding D.Driver plan.now b S.tells K.tells first (stalled + from_bool (moved == 0)) passage.new route.new
        (S.left src.new) (K.written out.new)) }
    ensures ends { (b : Before) (first : D) (stalled : ℕ) → b.big ≡ header.now.big
        → IsForwarding D.Driver plan.now b S.tells K.tells first stalled passage.old route.old (S.left src.old) (K.written out.old)
        → IfErr result (λ end. IsOver D.Driver plan.now b S.tells K.tells first stalled end passage.new.counts route.new (K.written out.new)) }
    ensures steps { IfOk result (λ moved. moved + steps_ahead D.Driver passage.new route.new ≡ steps_ahead D.Driver passage.old route.old) }
    ensures ended { S.tells → result ≡ Err (FlowEnd.Stopped ReadStop.End) → S.left src.new ≡ [] }
    ensures read_later { S.faults src.old ≤ S.faults src.new }
    ensures read_cause { result ≡ Err (FlowEnd.Stopped ReadStop.Fault) → Rose (S.faults src.old) (S.faults src.new) }
    ensures write_later { K.faults out.old ≤ K.faults out.new }
    ensures write_cause { result ≡ Err FlowEnd.WriteFault → Rose (K.faults out.old) (K.faults out.new) }
    ensures write_steady { K.steady → ¬ (result ≡ Err FlowEnd.WriteFault) → K.faults out.new ≡ K.faults out.old }
{
    feed(alloc, plan, window, header, src, store, out, passage, route)?;
    if passage.slots.is_empty() {
        return match passage.window.stop() {
            Some(stop) => Err(FlowEnd::Stopped(stop)),
            None => unreachable!(),
        };
    }
    let moved = route.carry(alloc, store, header, plan, &mut passage.slots);
    passage
        .slots
        .write_ready(out, store, header, &mut passage.counts)?;
    Ok(moved)
}

// Turn after turn, to the end.
fn run_all<S: Source, P: SegStore, K: Sink, D: Driver<Card>>(
    alloc: Global,
    plan: &ReadyPlan,
    window: usize,
    header: &Header,
    src: &mut S,
    store: &mut P,
    out: &mut K,
    passage: &mut Passage,
    route: &mut Route<D>,
) -> FlowEnd
    requires endless { P.endless }
    requires window { 1 ≤ window }
    requires forwarding { (b : Before) × (first : D) × (b.big ≡ header.now.big)
        × IsForwarding D.Driver plan.now b S.tells K.tells first 0 passage.old route.old (S.left src.old) (K.written out.old) }
    ensures over { (b : Before) (first : D) → b.big ≡ header.now.big
        → IsForwarding D.Driver plan.now b S.tells K.tells first 0 passage.old route.old (S.left src.old) (K.written out.old)
        → (stalled : ℕ) × IsOver D.Driver plan.now b S.tells K.tells first stalled result passage.new.counts route.new (K.written out.new) }
    ensures ended { S.tells → result ≡ FlowEnd.Stopped ReadStop.End → S.left src.new ≡ [] }
    ensures read_later { S.faults src.old ≤ S.faults src.new }
    ensures read_cause { result ≡ FlowEnd.Stopped ReadStop.Fault → Rose (S.faults src.old) (S.faults src.new) }
    ensures write_later { K.faults out.old ≤ K.faults out.new }
    ensures write_cause { result ≡ FlowEnd.WriteFault → Rose (K.faults out.old) (K.faults out.new) }
    ensures write_steady { K.steady → ¬ (result ≡ FlowEnd.WriteFault) → K.faults out.new ≡ K.faults out.old }
{
    let mut stalled: u64 = 0;
    loop {
        let moved = match turn(alloc, plan, window, header, src, store, out, passage, route) {
            Ok(moved) => moved,
            Err(end) => return end,
        };
        stalled += u64::from(moved == 0);
        if stalled >= PATIENCE * (1 + route.submitted()) {
            return FlowEnd::Stalled;
        }
    }
}

/// Sends the packets of a capture, behind its header, through an event adapter over a driver, which is its queue pair 0: as `transfer`
/// does, but the operations go as events into a port that never balks, where at least 32 wait before each run of the adapter, or all
/// that are left of the capture. The driver holds nothing, and has the plan's sessions. It comes back, with what it holds.
///
/// A turn that moves nothing is one in which the driver stalled. It may do so `PATIENCE` times, and as often again for each
/// operation that it accepted.
pub fn forward<S: Source, P: SegStore, K: Sink, D: Driver<Card>>(
    alloc: Global,
    plan: &ReadyPlan,
    window: usize,
    header: &Header,
    src: &mut S,
    store: &mut P,
    out: &mut K,
    dev: D,
) -> Forwarded<D>
    requires endless { P.endless }
    requires window { 1 ≤ window }
    requires sessions { D.sessions dev ≡ sessions_of plan.now }
    requires idle { D.held dev ≡ [] }
    requires stats { D.stats dev ≡ no_stats }
    requires works { (d : D) → D.follows dev d → NeverIdle D.admits D.held d }
    ensures ends { ForwardsAs plan.now (before header.now.big (S.left src.old) (K.written out.old) None 32) S.tells K.tells
        result.flow.end result.flow.counts (K.written out.new) (D.stats result.dev).enqueued }
    ensures ended { S.tells → result.flow.end ≡ FlowEnd.Stopped ReadStop.End → S.left src.new ≡ [] }
    ensures stalled { result.flow.end ≡ FlowEnd.Stalled → capped (D.stalls dev + PATIENCE * (1 + (D.stats result.dev).enqueued)) ≤ D.stalls result.dev }
    ensures stalls { D.stalls dev ≤ D.stalls result.dev }
    ensures sessions { D.sessions result.dev ≡ D.sessions dev }
    ensures follows { D.follows dev result.dev }
    ensures read_later { S.faults src.old ≤ S.faults src.new }
    ensures read_cause { result.flow.end ≡ FlowEnd.Stopped ReadStop.Fault → Rose (S.faults src.old) (S.faults src.new) }
    ensures write_later { K.faults out.old ≤ K.faults out.new }
    ensures write_cause { result.flow.end ≡ FlowEnd.WriteFault → Rose (K.faults out.old) (K.faults out.new) }
    ensures write_steady { K.steady → ¬ (result.flow.end ≡ FlowEnd.WriteFault) → K.faults out.new ≡ K.faults out.old }
{
    let none = Flow {
        end: FlowEnd::OutOfMemory,
        counts: Counts::new(),
    };
    let Ok(mut passage) = Passage::new(alloc, BURST) else {
        return Forwarded { flow: none, dev };
    };
    let mut route = match Route::new(alloc, dev) {
        Ok(route) => route,
        Err(dev) => return Forwarded { flow: none, dev },
    };
    let end = run_all(
        alloc,
        plan,
        window,
        header,
        src,
        store,
        out,
        &mut passage,
        &mut route,
    );
    Forwarded {
        flow: Flow {
            end,
            counts: passage.counts,
        },
        dev: route.into_device(),
    }
}
