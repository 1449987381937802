//! A whole capture through a queue pair.
ghost use Rattle.std.specs.Prelude.{◌≡◌, ◌+◌, ◌*◌, ◌<◌, ◌≤◌, ◌⊎◌, [], ◌++◌, List, ℕ, Bool, length, option_map, IfErr, IfOk, OnOk, Err};
ghost use Rattle.crypto_model.specs.Counts.{capped, Rose};
ghost use Rattle.crypto_op.specs.declared.spec.Card.{Card};
ghost use Rattle.dev_core.specs.Stats.{no_stats};
ghost use Rattle.packet_plan.specs.Asked.{sessions_of};
ghost use Rattle.packet_flow.specs.Passage.{Before, EndsAs, IsUnderway, before, outside};
ghost use Rattle.packet_flow.specs.Turns.{IsAt, NeverIdle};
ghost use Rattle.dev_core.specs.Calls.{Call, Ran};

use crate::counts::Counts;
use crate::filling::fill;
use crate::passage::Passage;
use crate::turn::turn;
use capture_io::{Header, ReadStop, Sink, Source, WriteFault};
use crypto_model::OutOfMemory;
use crypto_op::{Card, MAX_OPS};
use dev_core::Driver;
use mbuf_chain::SegStore;
use packet_plan::ReadyPlan;
use std::alloc::Global;

/// So many turns that move nothing are suffered, and as many more for each operation that was accepted.
pub const PATIENCE: u64 = 4096;

/// Why a flow ended.
#[derive(Clone, Copy, Debug, PartialEq, Eq)]
pub enum FlowEnd {
    /// The capture was read up to this stop. Where it is neither a fault nor want of memory, all records before it
    /// were answered and written.
    Stopped(ReadStop),
    /// A write failed.
    WriteFault,
    /// The driver stalled in as many turns as it may.
    Stalled,
    OutOfMemory,
}

impl From<OutOfMemory> for FlowEnd {
    ghost use Rattle.packet_flow.specs.declared.flow.FlowEnd.TheVariants.{OutOfMemory};

    ghost from_gives = { λ _ e. e ≡ OutOfMemory };

    fn from(_error: OutOfMemory) -> FlowEnd {
        FlowEnd::OutOfMemory
    }
}

impl From<WriteFault> for FlowEnd {
    ghost use Rattle.packet_flow.specs.declared.flow.FlowEnd.TheVariants.{WriteFault};

    ghost from_gives = { λ _ e. e ≡ WriteFault };

    fn from(_fault: WriteFault) -> FlowEnd {
        FlowEnd::WriteFault
    }
}

// Fills the burst where it is empty, and lets the driver take one turn: how many operations moved.
fn step<S: Source, P: SegStore, K: Sink, D: Driver<Card>>(
    alloc: Global,
    plan: &ReadyPlan,
    window: usize,
    header: &Header,
    src: &mut S,
    store: &mut P,
    out: &mut K,
    dev: &mut D,
    passage: &mut Passage,
) -> Result<u64, FlowEnd>
    requires endless { P.endless }
    requires window { 1 ≤ window }
    requires sessions { D.sessions dev.old ≡ sessions_of plan.now }
    requires works { NeverIdle D.admits D.held dev.old }
    requires underway { (b : Before) × (past : List Call) × (b.big ≡ header.now.big) × IsAt past passage.old.burst.ops
        × IsUnderway plan.now b S.tells K.tells passage.old
        (outside (S.left src.old) (K.written out.old) (D.held dev.old) (D.stats dev.old) (D.log dev.old) past) }
    ensures underway { (b : Before) (past : List Call) (first : D) → b.big ≡ header.now.big → IsAt past passage.old.burst.ops
        → Ran D.does first past dev.old → IsUnderway plan.now b S.tells K.tells passage.old
        (outside (S.left src.old) (K.written out.old) (D.held dev.old) (D.stats dev.old) (D.log dev.old) past)
        → OnOk result ((now : List Call) × IsAt now passage.new.burst.ops × Ran D.does first now dev.new
        × IsUnderway plan.now b S.tells K.tells passage.new
        (outside (S.left src.new) (K.written out.new) (D.held dev.new) (D.stats dev.new) (D.log dev.new) now)) }
    ensures ends { (b : Before) (past : List Call) (first : D) → b.big ≡ header.now.big → IsAt past passage.old.burst.ops
        → Ran D.does first past dev.old → IsUnderway plan.now b S.tells K.tells passage.old
        (outside (S.left src.old) (K.written out.old) (D.held dev.old) (D.stats dev.old) (D.log dev.old) past)
        → IfErr result (λ end. (now : List Call) × Ran D.does first now dev.new
        × EndsAs plan.now b S.tells K.tells end passage.new.counts
        (outside (S.left src.new) (K.written out.new) (D.held dev.new) (D.stats dev.new) (D.log dev.new) now)) }
    ensures moved { IfOk result (λ n. n + length (D.held dev.new) + 2 * (D.stats dev.old).enqueued ≡ length (D.held dev.old) + 2 * (D.stats dev.new).enqueued) }
    ensures cause { IfOk result (λ n. n ≡ 0 → Rose (D.stalls dev.old) (D.stalls dev.new)) }
    ensures ended { S.tells → result ≡ Err (FlowEnd.Stopped ReadStop.End) → S.left src.new ≡ [] }
    ensures never { ¬ (result ≡ Err FlowEnd.Stalled) }
    ensures stalls { D.stalls dev.old ≤ D.stalls dev.new }
    ensures sessions { D.sessions dev.new ≡ D.sessions dev.old }
    ensures follows { D.follows dev.old dev.new }
    ensures read_later { S.faults src.old ≤ S.faults src.new }
    ensures read_cause { result ≡ Err (FlowEnd.Stopped ReadStop.Fault) → Rose (S.faults src.old) (S.faults src.new) }
    ensures write_later { K.faults out.old ≤ K.faults out.new }
    ensures write_cause { result ≡ Err FlowEnd.WriteFault → Rose (K.faults out.old) (K.faults out.new) }
    ensures write_steady { K.steady → ¬ (result ≡ Err FlowEnd.WriteFault) → K.faults out.new ≡ K.faults out.old }
{
    fill(alloc, plan, window, header, src, store, out, passage)?;
    if passage.burst.len() == 0 && passage.slots.is_empty() {
        return match passage.window.stop() {
            Some(stop) => Err(FlowEnd::Stopped(stop)),
            None => unreachable!(),
        };
    }
    let (accepted, returned) = turn(
        alloc,
        store,
        header,
        plan,
        dev,
        &mut passage.burst,
        &mut passage.slots,
        &mut passage.back,
    );
    passage
        .slots
        .write_ready(out, store, header, &mut passage.counts)?;
    Ok(accepted as u64 + returned as u64)
}

/// How much is taken at once: so many packets are read into a window, and so many operations are offered in a burst.
#[derive(Clone, Copy, Debug, PartialEq, Eq)]
pub struct Sizes {
    pub window: usize,
    pub burst: usize,
}

/// How a flow ended, and what was written by then.
#[derive(Clone, Copy, Debug, PartialEq, Eq)]
pub struct Flow {
    pub end: FlowEnd,
    pub counts: Counts,
}

/// Sends the packets of a capture, behind its header, through a driver: the plan makes operations of them, numbered
/// from 0, which are offered in bursts, the rest of a burst before a new one is begun, and the records are written in their
/// order as soon as they are answered. Their segments come from the store, and go back there. The driver holds nothing, and has the plan's
/// sessions.
///
/// A turn that moves nothing is one in which the driver stalled. It may do so `PATIENCE` times, and as often again for each
/// operation that it accepted.
pub fn transfer<S: Source, P: SegStore, K: Sink, D: Driver<Card>>(
    alloc: Global,
    plan: &ReadyPlan,
    sizes: Sizes,
    header: &Header,
    src: &mut S,
    store: &mut P,
    out: &mut K,
    dev: &mut D,
) -> Flow
    requires endless { P.endless }
    requires window { 1 ≤ sizes.window }
    requires burst { (1 ≤ sizes.burst) × (sizes.burst ≤ MAX_OPS) }
    requires sessions { D.sessions dev.old ≡ sessions_of plan.now }
    requires idle { D.held dev.old ≡ [] }
    requires stats { D.stats dev.old ≡ no_stats }
    requires log { D.log dev.old ≡ option_map (λ l. []) (D.log dev.old) }
    requires works { (d : D) → D.follows dev.old d → NeverIdle D.admits D.held d }
    // The calls that it made, and nothing else, lead from the driver before to the driver now, and offer the operations so.
    ensures ends { (now : List Call) × Ran D.does dev.old now dev.new
        × EndsAs plan.now (before header.now.big (S.left src.old) (K.written out.old) (D.log dev.old) sizes.burst) S.tells K.tells result.end result.counts
        (outside (S.left src.new) (K.written out.new) (D.held dev.new) (D.stats dev.new) (D.log dev.new) now) }
    ensures ended { S.tells → result.end ≡ FlowEnd.Stopped ReadStop.End → S.left src.new ≡ [] }
    ensures stalled { result.end ≡ FlowEnd.Stalled → capped (D.stalls dev.old + PATIENCE * (1 + (D.stats dev.new).enqueued)) ≤ D.stalls dev.new }
    ensures stalls { D.stalls dev.old ≤ D.stalls dev.new }
    ensures sessions { D.sessions dev.new ≡ D.sessions dev.old }
    ensures follows { D.follows dev.old dev.new }
    ensures read_later { S.faults src.old ≤ S.faults src.new }
    ensures read_cause { result.end ≡ FlowEnd.Stopped ReadStop.Fault → Rose (S.faults src.old) (S.faults src.new) }
    ensures write_later { K.faults out.old ≤ K.faults out.new }
    ensures write_cause { result.end ≡ FlowEnd.WriteFault → Rose (K.faults out.old) (K.faults out.new) }
    ensures write_steady { K.steady → ¬ (result.end ≡ FlowEnd.WriteFault) → K.faults out.new ≡ K.faults out.old }
{
    let Ok(mut passage) = Passage::new(alloc, sizes.burst) else {
        return Flow {
            end: FlowEnd::OutOfMemory,
            counts: Counts::new(),
        };
    };
    let mut stalled: u64 = 0;
    loop {
        let moved = match step(
            alloc,
            plan,
            sizes.window,
            header,
            src,
            store,
            out,
            dev,
            &mut passage,
        ) {
            Ok(moved) => moved,
            Err(end) => {
                return Flow {
                    end,
                    counts: passage.counts,
                };
            }
        };
        stalled += u64::from(moved == 0);
        if stalled >= PATIENCE * (1 + dev.stats().enqueued) {
            return Flow {
                end: FlowEnd::Stalled,
                counts: passage.counts,
            };
        }
    }
}
