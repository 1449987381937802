//! The top call.
ghost use Rattle.std.specs.Prelude.{◌≡◌, ◌≤◌, ◌<◌, ◌⊎◌, List, [], length, map, take, drop, All, string_bytes, Err};
ghost use Rattle.crypto_model.specs.Counts.{Rose};
ghost use Rattle.crypto_op.specs.declared.spec.Card.{Card};
ghost use Rattle.capture_io.specs.Capture.{Reading, IsReading};
ghost use Rattle.command_words.specs.Asked.{Fault, wanted};
ghost use Rattle.capcrypt.specs.Start.{LeavesSessions, Stops, started, workers_asked};
ghost use Rattle.capcrypt.specs.Written.{ending_of};
ghost use Rattle.capcrypt.specs.Report.{status_of};
ghost use Rattle.capcrypt.specs.Place.{HasWorked, IsGenerated, OfHanded, capture_read, generated_in};
ghost use Rattle.capcrypt.specs.Devices.{HaveStalledOut, devices_now};
ghost use Rattle.capcrypt.specs.Ran.{IsLate, Job, HasRun};

use crate::ending::{Ending, number};
use crate::place::{Worked, work};
use crate::report::write_report;
use crate::start::begin;
use crate::work::without_packets;
use capture_io::{Sink, Source};
use crypto_op::Card;
use dev_core::{Device, Driver};
use std::alloc::Global;

/// What a run leaves: its exit status, the devices that it was handed, in their order, and how many
/// operations were processed beside them.
#[derive(Drop)]
pub struct Done<D> {
    pub status: u8,
    pub devs: Vec<D>,
    pub helped: u64,
}

// How many operations each device has taken.
fn operations_of<D: Driver<Card>>(devs: &[D]) -> [u64; 8]
    requires { length devs.now ≤ 8 }
    ensures { take (length devs.now) result ≡ map (λ d. (D.stats d).enqueued) devs.now }
{
    let mut operations = [0; 8];
    for (i, dev) in devs.iter().enumerate() {
        operations[i] = dev.stats().enqueued;
    }
    operations
}

// A whole run, but for its report: by the words and the session text, and then by the capture.
fn run_unreported<S: Source, T: Source, K: Sink, D: Device<Card>>(
    alloc: Global,
    words: &[String],
    capture: &mut S,
    sessions: &mut T,
    out: &mut K,
    devs: Vec<D>,
) -> Worked<D>
    requires some { 0 < length devs.items }
    requires idle { All (λ d. D.held d ≡ []) devs.items }
    ensures job { let made = generated_in (wanted (map string_bytes words.now) (length devs.items))
        in OfHanded made S.tells → OfHanded made T.tells → OfHanded made K.tells
        → (reading : Reading) → IsReading (capture_read made (S.left capture.old)) reading
        → let now = devices_now D.limit D.sessions D.held D.room D.stalls D.stats D.log
        in HasWorked made (K.written out.old) (K.written out.new) result.outcome result.digest
        (λ old new. Job (started (map string_bytes words.now) (length devs.items) (T.left sessions.old)) reading result.outcome old new
        (λ n. drop n result.devs.items ≡ drop n devs.items) (now devs.items) (now result.devs.items)) }
    ensures untouched { IsGenerated (generated_in (wanted (map string_bytes words.now) (length devs.items)))
        → (capture.new ≡ capture.old) × (out.new ≡ out.old) }
    ensures count { length result.devs.items ≡ length devs.items }
    ensures few { result.outcome.devices ≤ length devs.items }
    ensures others { let w = workers_asked (wanted (map string_bytes words.now) (length devs.items)) in drop w result.devs.items ≡ drop w devs.items }
    ensures unread { LeavesSessions (wanted (map string_bytes words.now) (length devs.items)) → sessions.new ≡ sessions.old }
    ensures ended { S.tells → result.outcome.ending ≡ Ending.Done
        → OfHanded (generated_in (wanted (map string_bytes words.now) (length devs.items))) (S.left capture.new ≡ []) }
    ensures stalled { result.outcome.ending ≡ Ending.Stalled
        → let now = devices_now D.limit D.sessions D.held D.room D.stalls D.stats D.log
        in HaveStalledOut (workers_asked (wanted (map string_bytes words.now) (length devs.items))) (now devs.items) (now result.devs.items) }

    // Where the run ends before the capture is read, capture and output are as they were, and only the session source fails.
    ensures refused { (fault : Fault) → wanted (map string_bytes words.now) (length devs.items) ≡ Err fault
        → (capture.new ≡ capture.old) × (out.new ≡ out.old) }
    ensures stopped { T.tells → (e : Ending) → started (map string_bytes words.now) (length devs.items) (T.left sessions.old) ≡ Stops e
        → (capture.new ≡ capture.old) × (out.new ≡ out.old) × ¬ (result.outcome.ending ≡ Ending.WriteFault)
        × (result.outcome.ending ≡ Ending.ReadFault → Rose (T.faults sessions.old) (T.faults sessions.new)) }
    ensures early { IsLate result.outcome.ending ⊎ ((capture.new ≡ capture.old) × (out.new ≡ out.old)) }
    ensures read_cause { result.outcome.ending ≡ Ending.ReadFault
        → Rose (S.faults capture.old) (S.faults capture.new) ⊎ Rose (T.faults sessions.old) (T.faults sessions.new) }
    ensures write_later { K.faults out.old ≤ K.faults out.new }
    ensures write_cause { result.outcome.ending ≡ Ending.WriteFault → Rose (K.faults out.old) (K.faults out.new) }
    ensures write_steady { K.steady → ¬ (result.outcome.ending ≡ Ending.WriteFault) → K.faults out.new ≡ K.faults out.old }
{
    match begin(alloc, words, devs.len(), sessions) {
        Ok(task) => work(alloc, &task, capture, out, devs),
        Err(ending) => Worked {
            outcome: without_packets(ending, false, 0),
            devs,
            digest: None,
        },
    }
}

/// Does what the words behind the program's name ask for: reads the capture, makes an operation of each packet for
/// which its plan has a session, sends the operations in bursts through the devices, writes the capture to `out` and a
/// report to `report`. `crypt` has the plan of the session source, and deals the operations to as many devices as its
/// scheduler text names workers, by the text's mode. `forward` does the same through an event adapter, whose bursts are of at
/// most 32. `quick` has a plan of its own, uses the first device alone, and
/// leaves the source unread. `gen` reads a generated capture in place of the one that it is handed, by a plan and a scheduler of
/// its own, and reports a digest of what it writes, which no sink gets.
///
/// There are one to eight devices, none of which holds anything. The status is 0 where all was done, 1
/// where memory was wanting, 2 where the words aren't legal, 3 where the capture isn't whole, 4 where the session text
/// has a faulty line, 5 at a fault of a source, 6 at a fault of a sink, 7 where the used devices stalled in all the turns
/// that a run may have, and 8 where a record or the session text passes a limit.
pub fn run<S: Source, T: Source, K: Sink, E: Sink, D: Device<Card>>(
    alloc: Global,
    words: &[String],
    capture: &mut S,
    sessions: &mut T,
    out: &mut K,
    report: &mut E,
    devs: Vec<D>,
) -> Done<D>
    requires some { 0 < length devs.items }
    requires most { length devs.items ≤ 8 }
    requires idle { All (λ d. D.held d ≡ []) devs.items }

    // What was written, reported and done by the devices, and why.
    ensures ran { let made = generated_in (wanted (map string_bytes words.now) (length devs.items))
        in OfHanded made S.tells → OfHanded made T.tells → OfHanded made K.tells
        → E.tells → (reading : Reading) → IsReading (capture_read made (S.left capture.old)) reading
        → let now = devices_now D.limit D.sessions D.held D.room D.stalls D.stats D.log
        in HasRun made (started (map string_bytes words.now) (length devs.items) (T.left sessions.old)) reading result.status
        (K.written out.old) (K.written out.new)
        (λ n. drop n result.devs.items ≡ drop n devs.items) (now devs.items) (now result.devs.items)
        (E.written report.old) (E.written report.new) (Rose (E.faults report.old) (E.faults report.new)) }
    // Where the capture is generated, the one that was handed in and the output are as they were.
    ensures untouched { IsGenerated (generated_in (wanted (map string_bytes words.now) (length devs.items)))
        → (capture.new ≡ capture.old) × (out.new ≡ out.old) }
    // The devices behind the used ones are as they were, and so is the session source where the words don't ask for it.
    ensures devices { length result.devs.items ≡ length devs.items }
    ensures others { let w = workers_asked (wanted (map string_bytes words.now) (length devs.items)) in drop w result.devs.items ≡ drop w devs.items }
    ensures unread { LeavesSessions (wanted (map string_bytes words.now) (length devs.items)) → sessions.new ≡ sessions.old }
    ensures helped { result.helped ≡ 0 }
    ensures whole { S.tells → result.status ≡ 0 → OfHanded (generated_in (wanted (map string_bytes words.now) (length devs.items))) (S.left capture.new ≡ []) }

    // Where the words or the session text end the run, capture and output are as they were, and no fault is theirs.
    ensures refused { (fault : Fault) → wanted (map string_bytes words.now) (length devs.items) ≡ Err fault
        → (capture.new ≡ capture.old) × (out.new ≡ out.old) }
    ensures stopped { T.tells → (e : Ending) → started (map string_bytes words.now) (length devs.items) (T.left sessions.old) ≡ Stops e
        → (capture.new ≡ capture.old) × (out.new ≡ out.old) × (result.status ≡ 5 → Rose (T.faults sessions.old) (T.faults sessions.new))
        × (result.status ≡ 6 → Rose (E.faults report.old) (E.faults report.new)) }
    ensures early { (result.status ≡ 2) ⊎ (result.status ≡ 4) → (capture.new ≡ capture.old) × (out.new ≡ out.old) }

    // A fault is told only where a count rose, and a stall only where the used devices stalled as often as a run suffers it.
    ensures read_cause { result.status ≡ 5 → Rose (S.faults capture.old) (S.faults capture.new) ⊎ Rose (T.faults sessions.old) (T.faults sessions.new) }
    ensures write_cause { result.status ≡ 6 → Rose (K.faults out.old) (K.faults out.new) ⊎ Rose (E.faults report.old) (E.faults report.new) }
    ensures stall_cause { result.status ≡ 7
        → let now = devices_now D.limit D.sessions D.held D.room D.stalls D.stats D.log
        in HaveStalledOut (workers_asked (wanted (map string_bytes words.now) (length devs.items))) (now devs.items) (now result.devs.items) }
    // A write or a flush that failed is told.
    ensures out_steady { K.steady → ¬ (result.status ≡ 6) → K.faults out.new ≡ K.faults out.old }
    ensures report_steady { E.steady → ¬ (result.status ≡ 6) → E.faults report.new ≡ E.faults report.old }

    // Where no count rose so far, words, session text and capture decide the status, or memory was wanting.
    ensures complete { let made = generated_in (wanted (map string_bytes words.now) (length devs.items))
        in OfHanded made S.tells → OfHanded made T.tells → OfHanded made K.tells
        → E.tells → (reading : Reading) → IsReading (capture_read made (S.left capture.old)) reading
        → ¬ Rose (S.faults capture.old) (S.faults capture.new) → ¬ Rose (T.faults sessions.old) (T.faults sessions.new)
        → ¬ Rose (K.faults out.old) (K.faults out.new) → ¬ Rose (E.faults report.old) (E.faults report.new)
        → (let now = devices_now D.limit D.sessions D.held D.room D.stalls D.stats D.log
        in ¬ HaveStalledOut (workers_asked (wanted (map string_bytes words.now) (length devs.items))) (now devs.items) (now result.devs.items))
        → (result.status ≡ 1)
        ⊎ (result.status ≡ status_of (ending_of (started (map string_bytes words.now) (length devs.items) (T.left sessions.old)) reading)) }
{
    let worked = run_unreported(alloc, words, capture, sessions, out, devs);
    let Worked {
        outcome,
        devs,
        digest,
    } = worked;
    let operations = operations_of(&devs);
    let status = match write_report(report, &outcome, &operations[..outcome.devices], digest) {
        Ok(()) => number(&outcome.ending),
        Err(_) => 6,
    };
    Done {
        status,
        devs,
        helped: 0,
    }
}
