//! A run whose plan is known.
ghost use Rattle.std.specs.Prelude.{◌≡◌, ◌≤◌, ◌<◌, ◌⊎◌, true, List, [], length, drop, option_map, All};
ghost use Rattle.crypto_model.specs.Counts.{Rose};
ghost use Rattle.crypto_op.specs.declared.spec.Card.{Card};
ghost use Rattle.dev_core.specs.Calls.{Call, Ran};
ghost use Rattle.dev_core.specs.Stats.{no_stats};
ghost use Rattle.capture_io.specs.Capture.{Rec, Rest, Records, Reading, IsReading, Holds, first_place};
ghost use Rattle.packet_plan.specs.Asked.{sessions_of};
ghost use Rattle.packet_flow.specs.Counts.{counts_of};
ghost use Rattle.packet_flow.specs.Entries.{entries_from};
ghost use Rattle.packet_flow.specs.Turns.{NeverIdle};
ghost use Rattle.capcrypt.specs.declared.dealing.Dealing.TheVariants.{Alone};
ghost use Rattle.capcrypt.specs.Dealing.{workers_of};
ghost use Rattle.capcrypt.specs.Start.{Begins, CanStart, settings_of};
ghost use Rattle.capcrypt.specs.Written.{raised};
ghost use Rattle.capcrypt.specs.Devices.{HasStalledOut, HaveStalledOut, devices_now};
ghost use Rattle.capcrypt.specs.Ran.{HasAppended, IsDriven, IsLate, Job};

use crate::deal::deal_packets;
use crate::dealing::Dealing;
use crate::ending::{Ending, Outcome, ending_of_flow, ending_of_stop};
use crate::forwarding::forward_packets;
use crate::ready::{set_up, table_of};
use crate::start::Task;
use capture_io::{Header, Sink, Source, read_header, write_header};
use crypto_model::OutOfMemory;
use crypto_op::Card;
use dev_core::{Device, Driver, Kind};
use mbuf_pool::{LocalPool, Topped};
use packet_flow::{Counts, Sizes, transfer};
use std::alloc::Global;

const SNAPLEN: u32 = 262_208;

// Each record is read where it is begun, so that one that passes goes straight to the output, and a live capture flows.
pub(crate) const WINDOW: usize = 1;

// At most so many segments are kept, whatever the burst.
const MAX_KEPT: usize = 1024;

pub(crate) fn raise(header: &Header) -> Header
    ensures { result ≡ raised header.now }
{
    let snaplen = header.snaplen.max(SNAPLEN);
    Header { snaplen, ..*header }
}

/// The outcome of a run that wrote no packet.
pub(crate) fn without_packets(ending: Ending, header: bool, devices: usize) -> Outcome
    ensures { result ≡ record { ending = ending; counts = counts_of []; header = header; devices = devices } }
{
    Outcome {
        ending,
        counts: Counts::new(),
        header,
        devices,
    }
}

pub(crate) fn devices_of(task: &Task) -> usize
    ensures { result ≡ workers_of task.now.dealing }
{
    match &task.dealing {
        Dealing::Alone => 1,
        Dealing::Scheduled(text) | Dealing::Forwarded(text) => text.workers,
    }
}

// A store for a run with bursts of this size. It keeps the segments of a window and of two bursts, one that is formed and one
// that is worked on.
pub(crate) fn open_store(alloc: Global, burst: usize) -> Result<Topped, OutOfMemory>
    requires { burst ≤ 256 }
{
    let kept = MAX_KEPT.min(WINDOW + 2 * burst);
    Ok(Topped::new(alloc, LocalPool::open(alloc, kept)?))
}

// Writes the header, and sends the packets behind it through a driver that is ready.
fn write_packets<S: Source, K: Sink, D: Driver<Card>>(
    alloc: Global,
    task: &Task,
    header: &Header,
    capture: &mut S,
    out: &mut K,
    dev: &mut D,
) -> Outcome
    requires burst { (1 ≤ task.now.burst) × (task.now.burst ≤ 256) }
    requires sessions { D.sessions dev.old ≡ sessions_of task.now.plan }
    requires idle { D.held dev.old ≡ [] }
    requires stats { D.stats dev.old ≡ no_stats }
    requires log { D.log dev.old ≡ option_map (λ l. []) (D.log dev.old) }
    requires works { (d : D) → D.follows dev.old d → NeverIdle D.admits D.held d }
    ensures wrote { S.tells → K.tells → (rs : List Rec) (rest : Rest) → Records header.now.big first_place (S.left capture.old) rs rest
        → HasAppended (Begins (settings_of task.now)) (Holds header.now rs rest) result (K.written out.old) (K.written out.new) }
    // The calls that it made offer the operations in bursts of the task's size.
    ensures driven { S.tells → K.tells → (rs : List Rec) (rest : Rest) → Records header.now.big first_place (S.left capture.old) rs rest
        → (past : List Call) × Ran D.does dev.old past dev.new
        × IsDriven task.now.burst (entries_from task.now.plan 0 rs) result.ending past (D.stats dev.new).enqueued (D.log dev.old) (D.log dev.new) }
    ensures header { result.header ≡ true }
    ensures devices { result.devices ≡ workers_of task.now.dealing }
    ensures sessions { D.sessions dev.new ≡ D.sessions dev.old }
    ensures follows { D.follows dev.old dev.new }
    ensures ended { S.tells → result.ending ≡ Ending.Done → S.left capture.new ≡ [] }
    ensures stalled { result.ending ≡ Ending.Stalled → HasStalledOut (D.stalls dev.old) (D.stats dev.new).enqueued (D.stalls dev.new) }
    ensures read_later { S.faults capture.old ≤ S.faults capture.new }
    ensures read_cause { result.ending ≡ Ending.ReadFault → Rose (S.faults capture.old) (S.faults capture.new) }
    ensures write_later { K.faults out.old ≤ K.faults out.new }
    ensures write_cause { result.ending ≡ Ending.WriteFault → Rose (K.faults out.old) (K.faults out.new) }
    ensures write_steady { K.steady → ¬ (result.ending ≡ Ending.WriteFault) → K.faults out.new ≡ K.faults out.old }
    ensures late { IsLate result.ending }
{
    let devices = devices_of(task);
    let Ok(mut store) = open_store(alloc, task.burst) else {
        return without_packets(Ending::Memory, true, devices);
    };
    if let Err(_fault) = write_header(out, &raise(header)) {
        return without_packets(Ending::WriteFault, true, devices);
    }
    let sizes = Sizes {
        window: WINDOW,
        burst: task.burst,
    };
    let flow = transfer(
        alloc, &task.plan, sizes, header, capture, &mut store, out, dev,
    );
    Outcome {
        ending: ending_of_flow(flow.end),
        counts: flow.counts,
        header: true,
        devices,
    }
}

// Flushes a sink behind its last write. A failure is the outcome's ending.
pub(crate) fn flushed<K: Sink>(out: &mut K, outcome: Outcome) -> Outcome
    ensures same { K.tells → K.written out.new ≡ K.written out.old }
    ensures outcome { (result ≡ outcome) ⊎ ((result ≡ record outcome { ending = Ending.WriteFault }) × Rose (K.faults out.old) (K.faults out.new)) }
    ensures later { K.faults out.old ≤ K.faults out.new }
    ensures steady { K.steady → ¬ (result.ending ≡ Ending.WriteFault) → K.faults out.new ≡ K.faults out.old }
{
    match out.flush() {
        Ok(()) => outcome,
        Err(_) => Outcome {
            ending: Ending::WriteFault,
            ..outcome
        },
    }
}

/// The same, with a flush behind it.
pub(crate) fn send_packets<S: Source, K: Sink, D: Driver<Card>>(
    alloc: Global,
    task: &Task,
    header: &Header,
    capture: &mut S,
    out: &mut K,
    dev: &mut D,
) -> Outcome
    requires burst { (1 ≤ task.now.burst) × (task.now.burst ≤ 256) }
    requires sessions { D.sessions dev.old ≡ sessions_of task.now.plan }
    requires idle { D.held dev.old ≡ [] }
    requires stats { D.stats dev.old ≡ no_stats }
    requires log { D.log dev.old ≡ option_map (λ l. []) (D.log dev.old) }
    requires works { (d : D) → D.follows dev.old d → NeverIdle D.admits D.held d }
    ensures wrote { S.tells → K.tells → (rs : List Rec) (rest : Rest) → Records header.now.big first_place (S.left capture.old) rs rest
        → HasAppended (Begins (settings_of task.now)) (Holds header.now rs rest) result (K.written out.old) (K.written out.new) }
    // The calls that it made offer the operations in bursts of the task's size.
    ensures driven { S.tells → K.tells → (rs : List Rec) (rest : Rest) → Records header.now.big first_place (S.left capture.old) rs rest
        → (past : List Call) × Ran D.does dev.old past dev.new
        × IsDriven task.now.burst (entries_from task.now.plan 0 rs) result.ending past (D.stats dev.new).enqueued (D.log dev.old) (D.log dev.new) }
    ensures header { result.header ≡ true }
    ensures devices { result.devices ≡ workers_of task.now.dealing }
    ensures sessions { D.sessions dev.new ≡ D.sessions dev.old }
    ensures follows { D.follows dev.old dev.new }
    ensures ended { S.tells → result.ending ≡ Ending.Done → S.left capture.new ≡ [] }
    ensures stalled { result.ending ≡ Ending.Stalled → HasStalledOut (D.stalls dev.old) (D.stats dev.new).enqueued (D.stalls dev.new) }
    ensures read_later { S.faults capture.old ≤ S.faults capture.new }
    ensures read_cause { result.ending ≡ Ending.ReadFault → Rose (S.faults capture.old) (S.faults capture.new) }
    ensures write_later { K.faults out.old ≤ K.faults out.new }
    ensures write_cause { result.ending ≡ Ending.WriteFault → Rose (K.faults out.old) (K.faults out.new) }
    ensures write_steady { K.steady → ¬ (result.ending ≡ Ending.WriteFault) → K.faults out.new ≡ K.faults out.old }
    ensures late { IsLate result.ending }
{
    let outcome = write_packets(alloc, task, header, capture, out, dev);
    flushed(out, outcome)
}

// Sets the first device up, and sends the packets through it alone.
fn work_alone<S: Source, K: Sink, D: Device<Card>>(
    alloc: Global,
    task: &Task,
    header: &Header,
    capture: &mut S,
    out: &mut K,
    devs: Vec<D>,
) -> (Outcome, Vec<D>)
    requires alone { task.now.dealing ≡ Alone }
    requires can { CanStart task.now (length devs.items) }
    requires idle { All (λ d. D.held d ≡ []) devs.items }
    ensures job { S.tells → K.tells → (rs : List Rec) (rest : Rest) → Records header.now.big first_place (S.left capture.old) rs rest
        → let now = devices_now D.limit D.sessions D.held D.room D.stalls D.stats D.log
        in Job (Begins (settings_of task.now)) (Holds header.now rs rest) result.0 (K.written out.old) (K.written out.new)
        (λ n. drop n result.1.items ≡ drop n devs.items) (now devs.items) (now result.1.items) }
    ensures count { length result.1.items ≡ length devs.items }
    ensures few { result.0.devices ≤ length devs.items }
    ensures others { let w = workers_of task.now.dealing in drop w result.1.items ≡ drop w devs.items }
    ensures ended { S.tells → result.0.ending ≡ Ending.Done → S.left capture.new ≡ [] }
    ensures stalled { result.0.ending ≡ Ending.Stalled
        → let now = devices_now D.limit D.sessions D.held D.room D.stalls D.stats D.log
        in HaveStalledOut (workers_of task.now.dealing) (now devs.items) (now result.1.items) }
    ensures read_later { S.faults capture.old ≤ S.faults capture.new }
    ensures read_cause { result.0.ending ≡ Ending.ReadFault → Rose (S.faults capture.old) (S.faults capture.new) }
    ensures write_later { K.faults out.old ≤ K.faults out.new }
    ensures write_cause { result.0.ending ≡ Ending.WriteFault → Rose (K.faults out.old) (K.faults out.new) }
    ensures write_steady { K.steady → ¬ (result.0.ending ≡ Ending.WriteFault) → K.faults out.new ≡ K.faults out.old }
    ensures late { IsLate result.0.ending }
{
    let mut devs = devs;
    let Ok(sessions) = table_of(alloc, &task.plan) else {
        return (without_packets(Ending::Memory, true, 1), devs);
    };
    let Ok(()) = set_up(alloc, Kind::Plain, &sessions, &mut devs[0]) else {
        return (without_packets(Ending::Memory, true, 1), devs);
    };
    let outcome = send_packets(alloc, task, header, capture, out, &mut devs[0]);
    (outcome, devs)
}

// Sends the packets through the devices that the task uses.
fn process_packets<S: Source, K: Sink, D: Device<Card>>(
    alloc: Global,
    task: &Task,
    header: &Header,
    capture: &mut S,
    out: &mut K,
    devs: Vec<D>,
) -> (Outcome, Vec<D>)
    requires can { CanStart task.now (length devs.items) }
    requires idle { All (λ d. D.held d ≡ []) devs.items }
    ensures job { S.tells → K.tells → (rs : List Rec) (rest : Rest) → Records header.now.big first_place (S.left capture.old) rs rest
        → let now = devices_now D.limit D.sessions D.held D.room D.stalls D.stats D.log
        in Job (Begins (settings_of task.now)) (Holds header.now rs rest) result.0 (K.written out.old) (K.written out.new)
        (λ n. drop n result.1.items ≡ drop n devs.items) (now devs.items) (now result.1.items) }
    ensures count { length result.1.items ≡ length devs.items }
    ensures few { result.0.devices ≤ length devs.items }
    ensures others { let w = workers_of task.now.dealing in drop w result.1.items ≡ drop w devs.items }
    ensures ended { S.tells → result.0.ending ≡ Ending.Done → S.left capture.new ≡ [] }
    ensures stalled { result.0.ending ≡ Ending.Stalled
        → let now = devices_now D.limit D.sessions D.held D.room D.stalls D.stats D.log
        in HaveStalledOut (workers_of task.now.dealing) (now devs.items) (now result.1.items) }
    ensures read_later { S.faults capture.old ≤ S.faults capture.new }
    ensures read_cause { result.0.ending ≡ Ending.ReadFault → Rose (S.faults capture.old) (S.faults capture.new) }
    ensures write_later { K.faults out.old ≤ K.faults out.new }
    ensures write_cause { result.0.ending ≡ Ending.WriteFault → Rose (K.faults out.old) (K.faults out.new) }
    ensures write_steady { K.steady → ¬ (result.0.ending ≡ Ending.WriteFault) → K.faults out.new ≡ K.faults out.old }
    ensures late { IsLate result.0.ending }
{
    match &task.dealing {
        Dealing::Alone => work_alone(alloc, task, header, capture, out, devs),
        Dealing::Scheduled(text) => deal_packets(alloc, task, text, header, capture, out, devs),
        Dealing::Forwarded(text) => forward_packets(alloc, task, text, header, capture, out, devs),
    }
}

/// Reads the header of the capture, and processes the packets behind it.
pub(crate) fn process_capture<S: Source, K: Sink, D: Device<Card>>(
    alloc: Global,
    task: &Task,
    capture: &mut S,
    out: &mut K,
    devs: Vec<D>,
) -> (Outcome, Vec<D>)
    requires can { CanStart task.now (length devs.items) }
    requires idle { All (λ d. D.held d ≡ []) devs.items }
    ensures job { S.tells → K.tells → (reading : Reading) → IsReading (S.left capture.old) reading
        → let now = devices_now D.limit D.sessions D.held D.room D.stalls D.stats D.log
        in Job (Begins (settings_of task.now)) reading result.0 (K.written out.old) (K.written out.new)
        (λ n. drop n result.1.items ≡ drop n devs.items) (now devs.items) (now result.1.items) }
    ensures count { length result.1.items ≡ length devs.items }
    ensures few { result.0.devices ≤ length devs.items }
    ensures others { let w = workers_of task.now.dealing in drop w result.1.items ≡ drop w devs.items }
    ensures ended { S.tells → result.0.ending ≡ Ending.Done → S.left capture.new ≡ [] }
    ensures stalled { result.0.ending ≡ Ending.Stalled
        → let now = devices_now D.limit D.sessions D.held D.room D.stalls D.stats D.log
        in HaveStalledOut (workers_of task.now.dealing) (now devs.items) (now result.1.items) }
    ensures read_later { S.faults capture.old ≤ S.faults capture.new }
    ensures read_cause { result.0.ending ≡ Ending.ReadFault → Rose (S.faults capture.old) (S.faults capture.new) }
    ensures write_later { K.faults out.old ≤ K.faults out.new }
    ensures write_cause { result.0.ending ≡ Ending.WriteFault → Rose (K.faults out.old) (K.faults out.new) }
    ensures write_steady { K.steady → ¬ (result.0.ending ≡ Ending.WriteFault) → K.faults out.new ≡ K.faults out.old }
    ensures late { IsLate result.0.ending }
{
    match read_header(capture) {
        Ok(header) => process_packets(alloc, task, &header, capture, out, devs),
        Err(stop) => (without_packets(ending_of_stop(stop), false, 0), devs),
    }
}
