//! Packets that are dealt to several devices by a scheduler.
ghost use Rattle.std.specs.Prelude.{◌≡◌, ◌<◌, ◌≤◌, List, [], length, drop, All, IfOk, IfErr};
ghost use Rattle.std.specs.Arc.{arc_value};
ghost use Rattle.crypto_model.specs.Counts.{Rose};
ghost use Rattle.capture_io.specs.Capture.{Rec, Rest, Records, Holds, first_place};
ghost use Rattle.sched_core.specs.Mode.{most_workers};
ghost use Rattle.sched_core.specs.Stopped.{EachAlike};
ghost use Rattle.sched_modes.specs.Running.{AreIdle, IsStarted};
ghost use Rattle.command_words.specs.Gives.{RunsOnOneThread};
ghost use Rattle.capcrypt.specs.Dealing.{scheduler_of};
ghost use Rattle.capcrypt.specs.declared.dealing.Dealing.TheVariants.{Scheduled};
ghost use Rattle.capcrypt.specs.Devices.{HaveStalledOut, device_now, devices_now};
ghost use Rattle.capcrypt.specs.Launched.{IsLaunched, IsWanting};
ghost use Rattle.capcrypt.specs.Ran.{IsLate, Job};
ghost use Rattle.capcrypt.specs.Start.{Begins, CanStart, settings_of};

use crate::ending::{Ending, Outcome};
use crate::ready::set_up_each;
use crate::start::Task;
use crate::work::{send_packets, without_packets};
use capture_io::{Header, Sink, Source};
use crypto_op::Card;
use dev_core::Device;
use packet_plan::ReadyPlan;
use sched_core::{AttachRefused, SchedText, Scheduler};
use sched_modes::{Running, StartRefused, start};
use std::alloc::Global;
use std::sync::Arc;
use sym_session::SessionTable;

const RING: usize = 1024;

// Attaches the first devices, as many as the text says.
fn attach_each<D: Device<Card>>(scheduler: &mut Scheduler<D>, workers: usize)
    requires none { scheduler.old.workers ≡ 0 }
    requires enough { workers ≤ length scheduler.old.devs }
    requires most { workers ≤ most_workers scheduler.old.mode }
    requires alike { EachAlike D.sessions scheduler.old.sessions workers scheduler.old.devs }
    ensures attached { scheduler.new ≡ record scheduler.old { workers = workers } }
{
    for _i in 0..workers {
        match scheduler.attach::<Card>() {
            Ok(_place) => {}
            Err(AttachRefused::TooManyWorkers) => unreachable!(),
            Err(AttachRefused::NoDevice) => unreachable!(),
            Err(AttachRefused::SessionsDiffer) => unreachable!(),
        }
    }
}

// A scheduler that runs as its text says, over the first of these devices, which have its sessions and hold nothing. Where
// memory is wanting the devices come back.
fn launch<D: Device<Card>>(
    alloc: Global,
    text: &SchedText,
    sessions: Arc<SessionTable>,
    devs: Vec<D>,
) -> Result<Running<Card, D>, Vec<D>>
    requires legal { RunsOnOneThread text.now }
    requires enough { text.now.workers ≤ length devs.items }
    requires alike { EachAlike D.sessions (arc_value sessions) text.now.workers devs.items }
    requires idle { AreIdle D.Driver text.now.workers devs.items }
    ensures started { IfOk result (λ r. IsStarted (scheduler_of text.now (arc_value sessions) devs.items) 1024 r) }
    ensures refused { IfErr result (λ back. back.items ≡ devs.items) }
{
    let mut scheduler = Scheduler::new(text.mode, text.ordering, sessions, devs);
    attach_each(&mut scheduler, text.workers);
    match scheduler.set_threshold(text.threshold) {
        Ok(()) => {}
        Err(_bad) => unreachable!(),
    }
    match start(alloc, scheduler, RING) {
        Ok(running) => Ok(running),
        Err(StartRefused::OutOfMemory(scheduler)) => Err(scheduler.release()),
        Err(StartRefused::TooFewWorkers(_scheduler)) => unreachable!(),
    }
}

/// The same, over devices that are set up for a plan first. Where memory is wanting the devices come back.
pub(crate) fn launch_ready<D: Device<Card>>(
    alloc: Global,
    plan: &ReadyPlan,
    text: &SchedText,
    devs: Vec<D>,
) -> Result<Running<Card, D>, Vec<D>>
    requires legal { RunsOnOneThread text.now }
    requires enough { text.now.workers ≤ length devs.items }
    requires idle { All (λ d. D.held d ≡ []) devs.items }
    ensures launched { let now = device_now D.limit D.sessions D.held D.room D.stalls D.stats D.log
        in IfOk result (λ r. IsLaunched now plan.now text.now devs.items r) }
    ensures wanting { let now = device_now D.limit D.sessions D.held D.room D.stalls D.stats D.log
        in IfErr result (λ back. IsWanting now plan.now text.now.workers devs.items back.items) }
{
    let mut devs = devs;
    let Ok(sessions) = set_up_each(alloc, plan, text, &mut devs) else {
        return Err(devs);
    };
    launch(alloc, text, sessions, devs)
}

/// Sets up the devices that the scheduler's text names, and sends the packets through the scheduler over them.
pub(crate) fn deal_packets<S: Source, K: Sink, D: Device<Card>>(
    alloc: Global,
    task: &Task,
    text: &SchedText,
    header: &Header,
    capture: &mut S,
    out: &mut K,
    devs: Vec<D>,
) -> (Outcome, Vec<D>)
    requires text { task.now.dealing ≡ Scheduled text.now }
    requires can { CanStart task.now (length devs.items) }
    requires idle { All (λ d. D.held d ≡ []) devs.items }
    ensures job { S.tells → K.tells → (rs : List Rec) (rest : Rest) → Records header.now.big first_place (S.left capture.old) rs rest
        → let now = devices_now D.limit D.sessions D.held D.room D.stalls D.stats D.log
        in Job (Begins (settings_of task.now)) (Holds header.now rs rest) result.0 (K.written out.old) (K.written out.new)
        (λ n. drop n result.1.items ≡ drop n devs.items) (now devs.items) (now result.1.items) }
    ensures count { length result.1.items ≡ length devs.items }
    ensures few { result.0.devices ≤ length devs.items }
    ensures others { drop text.now.workers result.1.items ≡ drop text.now.workers devs.items }
    ensures ended { S.tells → result.0.ending ≡ Ending.Done → S.left capture.new ≡ [] }
    ensures stalled { result.0.ending ≡ Ending.Stalled
        → let now = devices_now D.limit D.sessions D.held D.room D.stalls D.stats D.log
        in HaveStalledOut text.now.workers (now devs.items) (now result.1.items) }
    ensures read_later { S.faults capture.old ≤ S.faults capture.new }
    ensures read_cause { result.0.ending ≡ Ending.ReadFault → Rose (S.faults capture.old) (S.faults capture.new) }
    ensures write_later { K.faults out.old ≤ K.faults out.new }
    ensures write_cause { result.0.ending ≡ Ending.WriteFault → Rose (K.faults out.old) (K.faults out.new) }
    ensures write_steady { K.steady → ¬ (result.0.ending ≡ Ending.WriteFault) → K.faults out.new ≡ K.faults out.old }
    ensures late { IsLate result.0.ending }
{
    let mut running = match launch_ready(alloc, &task.plan, text, devs) {
        Ok(running) => running,
        Err(devs) => return (without_packets(Ending::Memory, true, text.workers), devs),
    };
    let outcome = send_packets(alloc, task, header, capture, out, &mut running);
    (outcome, running.break_up().release())
}
