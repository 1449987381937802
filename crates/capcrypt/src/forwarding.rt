//! Packets that go through an event adapter over a scheduler.
ghost use Rattle.std.specs.Prelude.{◌≡◌, ◌≤◌, true, List, [], length, drop, All};
ghost use Rattle.crypto_model.specs.Counts.{Rose};
ghost use Rattle.capture_io.specs.Capture.{Rec, Rest, Records, Holds, first_place};
ghost use Rattle.dev_core.specs.Stats.{no_stats};
ghost use Rattle.packet_plan.specs.Asked.{sessions_of};
ghost use Rattle.packet_flow.specs.Entries.{entries_from};
ghost use Rattle.packet_flow.specs.Turns.{NeverIdle};
ghost use Rattle.capcrypt.specs.declared.dealing.Dealing.TheVariants as dealing;
ghost use Rattle.capcrypt.specs.Dealing.{workers_of};
ghost use Rattle.capcrypt.specs.Devices.{HasStalledOut, HaveStalledOut, devices_now};
ghost use Rattle.capcrypt.specs.Ran.{HasAppended, IsAccepted, IsLate, Job};
ghost use Rattle.capcrypt.specs.Start.{Begins, CanStart, settings_of};

use crate::deal::launch_ready;
use crate::ending::{Ending, Outcome, ending_of_flow};
use crate::start::Task;
use crate::work::{WINDOW, devices_of, flushed, open_store, raise, without_packets};
use capture_io::{Header, Sink, Source, write_header};
use crypto_op::Card;
use dev_core::{Device, Driver};
use packet_flow::{Forwarded, forward};
use sched_core::SchedText;
use std::alloc::Global;

// Writes the header, and sends the packets behind it through an event adapter over a driver that is ready. It comes back.
fn write_forwarded<S: Source, K: Sink, D: Driver<Card>>(
    alloc: Global,
    task: &Task,
    header: &Header,
    capture: &mut S,
    out: &mut K,
    dev: D,
) -> (Outcome, D)
    requires burst { task.now.burst ≤ 256 }
    requires sessions { D.sessions dev ≡ sessions_of task.now.plan }
    requires idle { D.held dev ≡ [] }
    requires stats { D.stats dev ≡ no_stats }
    requires works { (d : D) → D.follows dev d → NeverIdle D.admits D.held d }
    ensures wrote { S.tells → K.tells → (rs : List Rec) (rest : Rest) → Records header.now.big first_place (S.left capture.old) rs rest
        → HasAppended (Begins (settings_of task.now)) (Holds header.now rs rest) result.0 (K.written out.old) (K.written out.new) }
    ensures accepted { S.tells → K.tells → (rs : List Rec) (rest : Rest) → Records header.now.big first_place (S.left capture.old) rs rest
        → IsAccepted (entries_from task.now.plan 0 rs) result.0.ending (D.stats result.1).enqueued }
    ensures header { result.0.header ≡ true }
    ensures devices { result.0.devices ≡ workers_of task.now.dealing }
    ensures follows { D.follows dev result.1 }
    ensures ended { S.tells → result.0.ending ≡ Ending.Done → S.left capture.new ≡ [] }
    ensures stalled { result.0.ending ≡ Ending.Stalled → HasStalledOut (D.stalls dev) (D.stats result.1).enqueued (D.stalls result.1) }
    ensures read_later { S.faults capture.old ≤ S.faults capture.new }
    ensures read_cause { result.0.ending ≡ Ending.ReadFault → Rose (S.faults capture.old) (S.faults capture.new) }
    ensures write_later { K.faults out.old ≤ K.faults out.new }
    ensures write_cause { result.0.ending ≡ Ending.WriteFault → Rose (K.faults out.old) (K.faults out.new) }
    ensures write_steady { K.steady → ¬ (result.0.ending ≡ Ending.WriteFault) → K.faults out.new ≡ K.faults out.old }
    ensures late { IsLate result.0.ending }
{
    let devices = devices_of(task);
    let Ok(mut store) = open_store(alloc, task.burst) else {
        return (without_packets(Ending::Memory, true, devices), dev);
    };
    if let Err(_fault) = write_header(out, &raise(header)) {
        return (without_packets(Ending::WriteFault, true, devices), dev);
    }
    let Forwarded { flow, dev } = forward(
        alloc, &task.plan, WINDOW, header, capture, &mut store, out, dev,
    );
    let outcome = Outcome {
        ending: ending_of_flow(flow.end),
        counts: flow.counts,
        header: true,
        devices,
    };
    (outcome, dev)
}

// The same, with a flush behind it.
fn send_forwarded<S: Source, K: Sink, D: Driver<Card>>(
    alloc: Global,
    task: &Task,
    header: &Header,
    capture: &mut S,
    out: &mut K,
    dev: D,
) -> (Outcome, D)
    requires burst { task.now.burst ≤ 256 }
    requires sessions { D.sessions dev ≡ sessions_of task.now.plan }
    requires idle { D.held dev ≡ [] }
    requires stats { D.stats dev ≡ no_stats }
    requires works { (d : D) → D.follows dev d → NeverIdle D.admits D.held d }
    ensures wrote { S.tells → K.tells → (rs : List Rec) (rest : Rest) → Records header.now.big first_place (S.left capture.old) rs rest
        → HasAppended (Begins (settings_of task.now)) (Holds header.now rs rest) result.0 (K.written out.old) (K.written out.new) }
    ensures accepted { S.tells → K.tells → (rs : List Rec) (rest : Rest) → Records header.now.big first_place (S.left capture.old) rs rest
        → IsAccepted (entries_from task.now.plan 0 rs) result.0.ending (D.stats result.1).enqueued }
    ensures header { result.0.header ≡ true }
    ensures devices { result.0.devices ≡ workers_of task.now.dealing }
    ensures follows { D.follows dev result.1 }
    ensures ended { S.tells → result.0.ending ≡ Ending.Done → S.left capture.new ≡ [] }
    ensures stalled { result.0.ending ≡ Ending.Stalled → HasStalledOut (D.stalls dev) (D.stats result.1).enqueued (D.stalls result.1) }
    ensures read_later { S.faults capture.old ≤ S.faults capture.new }
    ensures read_cause { result.0.ending ≡ Ending.ReadFault → Rose (S.faults capture.old) (S.faults capture.new) }
    ensures write_later { K.faults out.old ≤ K.faults out.new }
    ensures write_cause { result.0.ending ≡ Ending.WriteFault → Rose (K.faults out.old) (K.faults out.new) }
    ensures write_steady { K.steady → ¬ (result.0.ending ≡ Ending.WriteFault) → K.faults out.new ≡ K.faults out.old }
    ensures late { IsLate result.0.ending }
{
    let (outcome, dev) = write_forwarded(alloc, task, header, capture, out, dev);
    (flushed(out, outcome), dev)
}

/// Sets up the devices that the scheduler's text names, and sends the packets through an event adapter over the scheduler over them.
pub(crate) fn forward_packets<S: Source, K: Sink, D: Device<Card>>(
    alloc: Global,
    task: &Task,
    text: &SchedText,
    header: &Header,
    capture: &mut S,
    out: &mut K,
    devs: Vec<D>,
) -> (Outcome, Vec<D>)
    requires text { task.now.dealing ≡ dealing.Forwarded text.now }
    requires can { CanStart task.now (length devs.items) }
    requires idle { All (λ d. D.held d ≡ []) devs.items }
    ensures job { S.tells → K.tells → (rs : List Rec) (rest : Rest) → Records header.now.big first_place (S.left capture.old) rs rest
        → let now = devices_now D.limit D.sessions D.held D.room D.stalls D.stats D.log
        in Job (Begins (settings_of task.now)) (Holds header.now rs rest) result.0 (K.written out.old) (K.written out.new)
        (λ n. drop n result.1.items ≡ drop n devs.items) (now devs.items) (now result.1.items) }
    ensures count { length result.1.items ≡ length devs.items }
    ensures few { result.0.devices ≤ length devs.items }
    ensures others { drop text.now.workers result.1.items ≡ drop text.now.workers devs.items }
    ensures ended { S.tells → result.0.ending ≡ Ending.Done → S.left capture.new ≡ [] }
    ensures stalled { result.0.ending ≡ Ending.Stalled
        → let now = devices_now D.limit D.sessions D.held D.room D.stalls D.stats D.log
        in HaveStalledOut text.now.workers (now devs.items) (now result.1.items) }
    ensures read_later { S.faults capture.old ≤ S.faults capture.new }
    ensures read_cause { result.0.ending ≡ Ending.ReadFault → Rose (S.faults capture.old) (S.faults capture.new) }
    ensures write_later { K.faults out.old ≤ K.faults out.new }
    ensures write_cause { result.0.ending ≡ Ending.WriteFault → Rose (K.faults out.old) (K.faults out.new) }
    ensures write_steady { K.steady → ¬ (result.0.ending ≡ Ending.WriteFault) → K.faults out.new ≡ K.faults out.old }
    ensures late { IsLate result.0.ending }
{
    let running = match launch_ready(alloc, &task.plan, text, devs) {
        Ok(running) => running,
        Err(devs) => return (without_packets(Ending::Memory, true, text.workers), devs),
    };
    let (outcome, running) = send_forwarded(alloc, task, header, capture, out, running);
    (outcome, running.break_up().release())
}
