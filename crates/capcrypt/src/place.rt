//! Where a run reads its capture, and where it writes.
ghost use Rattle.std.specs.Prelude.{◌≡◌, ◌≤◌, List, [], length, drop, All, Some};
ghost use Rattle.crypto_model.specs.Counts.{Rose};
ghost use Rattle.sha2.specs.Sha256.{sha256};
ghost use Rattle.capture_io.specs.Capture.{Reading, IsReading};
ghost use Rattle.capture_io.specs.Generated.{generated};
ghost use Rattle.capcrypt.specs.Dealing.{workers_of};
ghost use Rattle.capcrypt.specs.Start.{Begins, CanStart, settings_of};
ghost use Rattle.capcrypt.specs.Devices.{HaveStalledOut, devices_now};
ghost use Rattle.capcrypt.specs.Place.{HasWorked, IsGenerated, OfHanded, capture_read};
ghost use Rattle.capcrypt.specs.Ran.{IsLate, Job};

use crate::ending::{Ending, Outcome};
use crate::start::Task;
use crate::work::process_capture;
use capture_io::{Generator, HashSink, Sink, Source};
use command_words::Gen;
use crypto_op::Card;
use dev_core::Device;
use std::alloc::Global;

/// What a run leaves but for its report: the digest is that of what it wrote, where it wrote to no sink.
#[derive(Drop)]
pub(crate) struct Worked<D> {
    pub(crate) outcome: Outcome,
    pub(crate) devs: Vec<D>,
    pub(crate) digest: Option<[u8; 32]>,
}

// Reads a generated capture, and keeps the digest of what is written for it.
fn work_generated<D: Device<Card>>(alloc: Global, task: &Task, made: Gen, devs: Vec<D>) -> Worked<D>
    requires can { CanStart task.now (length devs.items) }
    requires idle { All (λ d. D.held d ≡ []) devs.items }
    ensures job { (reading : Reading) → IsReading (generated made.packets made.number) reading
        → let now = devices_now D.limit D.sessions D.held D.room D.stalls D.stats D.log
        in (new : List _) × (result.digest ≡ Some (sha256 new)) × Job (Begins (settings_of task.now)) reading result.outcome [] new
        (λ n. drop n result.devs.items ≡ drop n devs.items) (now devs.items) (now result.devs.items) }
    ensures count { length result.devs.items ≡ length devs.items }
    ensures few { result.outcome.devices ≤ length devs.items }
    ensures others { let w = workers_of task.now.dealing in drop w result.devs.items ≡ drop w devs.items }
    ensures stalled { result.outcome.ending ≡ Ending.Stalled
        → let now = devices_now D.limit D.sessions D.held D.room D.stalls D.stats D.log
        in HaveStalledOut (workers_of task.now.dealing) (now devs.items) (now result.devs.items) }
    ensures never { ¬ (result.outcome.ending ≡ Ending.ReadFault) × ¬ (result.outcome.ending ≡ Ending.WriteFault) }
    ensures late { IsLate result.outcome.ending }
{
    let mut source = Generator::new(made.packets, made.number);
    let mut sink = HashSink::new();
    let (outcome, devs) = process_capture(alloc, task, &mut source, &mut sink, devs);
    Worked {
        outcome,
        devs,
        digest: Some(sink.finish()),
    }
}

/// Processes the packets of the capture that the task reads.
pub(crate) fn work<S: Source, K: Sink, D: Device<Card>>(
    alloc: Global,
    task: &Task,
    capture: &mut S,
    out: &mut K,
    devs: Vec<D>,
) -> Worked<D>
    requires can { CanStart task.now (length devs.items) }
    requires idle { All (λ d. D.held d ≡ []) devs.items }
    ensures job { let made = task.now.generated in OfHanded made S.tells → OfHanded made K.tells
        → (reading : Reading) → IsReading (capture_read made (S.left capture.old)) reading
        → let now = devices_now D.limit D.sessions D.held D.room D.stalls D.stats D.log
        in HasWorked made (K.written out.old) (K.written out.new) result.outcome result.digest
        (λ old new. Job (Begins (settings_of task.now)) reading result.outcome old new
        (λ n. drop n result.devs.items ≡ drop n devs.items) (now devs.items) (now result.devs.items)) }
    ensures untouched { IsGenerated task.now.generated → (capture.new ≡ capture.old) × (out.new ≡ out.old) }
    ensures count { length result.devs.items ≡ length devs.items }
    ensures few { result.outcome.devices ≤ length devs.items }
    ensures others { let w = workers_of task.now.dealing in drop w result.devs.items ≡ drop w devs.items }
    ensures ended { S.tells → result.outcome.ending ≡ Ending.Done → OfHanded task.now.generated (S.left capture.new ≡ []) }
    ensures stalled { result.outcome.ending ≡ Ending.Stalled
        → let now = devices_now D.limit D.sessions D.held D.room D.stalls D.stats D.log
        in HaveStalledOut (workers_of task.now.dealing) (now devs.items) (now result.devs.items) }
    ensures read_later { S.faults capture.old ≤ S.faults capture.new }
    ensures read_cause { result.outcome.ending ≡ Ending.ReadFault → Rose (S.faults capture.old) (S.faults capture.new) }
    ensures write_later { K.faults out.old ≤ K.faults out.new }
    ensures write_cause { result.outcome.ending ≡ Ending.WriteFault → Rose (K.faults out.old) (K.faults out.new) }
    ensures write_steady { K.steady → ¬ (result.outcome.ending ≡ Ending.WriteFault) → K.faults out.new ≡ K.faults out.old }
    ensures late { IsLate result.outcome.ending }
{
    match task.generated {
        Some(made) => work_generated(alloc, task, made, devs),
        None => {
            let (outcome, devs) = process_capture(alloc, task, capture, out, devs);
            Worked {
                outcome,
                devs,
                digest: None,
            }
        }
    }
}
