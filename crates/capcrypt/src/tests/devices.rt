//! Runs over devices that refuse.
ghost use Rattle.std.specs.Prelude.{◌≡◌, [], length, IfOk, All};
ghost use Rattle.sym_engine.specs.Driver.{held_of};
ghost use Rattle.crypto_op.specs.Op.{IsFresh};
ghost use Rattle.dev_core.specs.Stall.{inner_of};
ghost use Rattle.dev_core.specs.Log.{logged_of};

use super::crypt::{BY_RULE, CRYPT, SEALS, head_of};
use super::{Ended, HEAD_OF_16, HEAD_OF_60, HEADER, NOTHING, QUICK, RAISED, joined, run_in_memory};
use crate::devices;
use crypto_model::{DigestPlace, Range, SessId};
use crypto_op::{Aad, Card, Iv, Op, OpBurst, OpSpec};
use dev_core::{Device, Driver, Kind, LimitList, Limits, LogDriver, LogEntry, StallDriver};
use mbuf_chain::Mbuf;
use seg_list::Seg;
use std::alloc::Global;
use std::sync::Arc;
use std::test::Fail;
use sym_engine::PlainDriver;
use sym_session::SessionTable;

fn stalling(
    alloc: Global,
    enqueue: Limits,
    dequeue: Limits,
) -> Result<Vec<StallDriver<PlainDriver<Card>>>, Fail>
    ensures some { IfOk result (λ v. length v.items ≡ 1) }
    ensures idle { IfOk result (λ v. All (λ d. held_of (inner_of d) ≡ []) v.items) }
{
    let device = StallDriver::new(PlainDriver::new(alloc)?, enqueue, dequeue);
    let mut devs = Vec::new(alloc);
    devs.push(device)?;
    Ok(devs)
}

// `crypt` over such a device.
fn crypt_over(
    alloc: Global,
    enqueue: Limits,
    dequeue: Limits,
    burst: &str,
    capture: Vec<u8>,
) -> Result<Ended<StallDriver<PlainDriver<Card>>>, Fail> {
    let words = [
        "crypt",
        "--vdev",
        "mode=round-robin,worker=plain",
        "--sessions",
        "f",
        "--burst",
        burst,
    ];
    let devs = stalling(alloc, enqueue, dequeue)?;
    run_in_memory(alloc, &words, SEALS, capture, 1000, NOTHING, devs)
}

// A capture of so many packets of 60 bytes.
pub(super) fn packets(alloc: Global, number: u32) -> Result<Vec<u8>, Fail> {
    let mut capture = joined(alloc, &[&HEADER])?;
    for _n in 0..number {
        capture.extend_from_slice(&HEAD_OF_60)?;
        capture.extend_from_slice(&[7; 60])?;
    }
    Ok(capture)
}

// How often the device has stalled.
fn stalls(run: &Ended<StallDriver<PlainDriver<Card>>>) -> Result<u64, Fail> {
    let device = run.devs.first().ok_or("no device")?;
    Ok(Driver::<Card>::stalls(device))
}

#[test]
fn a_device_may_refuse_for_a_time(rt: HostRuntime) -> Result<(), Fail> {
    let alloc = rt.alloc();
    // Each of the 64 packets grows by a tag of 16 bytes.
    let whole = 24 + 64 * 92;
    let cases = [
        (Limits::Never, Limits::Always(1), 0, 64, whole),
        (Limits::Always(1), Limits::Never, 0, 64, whole),
        (Limits::Always(0), Limits::Never, 7, 0, 24),
        (Limits::Never, Limits::Always(0), 7, 64, 24),
    ];
    for (enqueue, dequeue, status, operations, written) in cases {
        let run = crypt_over(alloc, enqueue, dequeue, "32", packets(alloc, 64)?)?;
        assert_eq!(rt; (run.status, run.enqueued), (status, operations));
        assert_eq!(rt; run.out.bytes().len(), written);
    }
    Ok(())
}

// The device takes 31 operations in the first call, and 1 in the second: the rest of a burst of 32, which isn't topped up.
#[test]
fn bursts_have_the_size_of_the_words(rt: HostRuntime) -> Result<(), Fail> {
    let alloc = rt.alloc();
    for (burst, expected) in [("32", 1), ("1", 0)] {
        let limits = Limits::Listed(LimitList::copy(alloc, &[31, 1])?);
        let run = crypt_over(alloc, limits, Limits::Never, burst, packets(alloc, 64)?)?;
        assert_eq!(rt;
            (run.status, run.enqueued, stalls(&run)?),
            (0, 64, expected)
        );
    }
    let devs = stalling(alloc, Limits::Always(1), Limits::Never)?;
    let run = run_in_memory(alloc, &QUICK, &[], packets(alloc, 64)?, 1000, NOTHING, devs)?;
    assert_eq!(rt; (run.status, run.enqueued, stalls(&run)?), (0, 64, 0));
    Ok(())
}

#[test]
fn a_run_suffers_4095_stalls_before_the_first_operation(rt: HostRuntime) -> Result<(), Fail> {
    let alloc = rt.alloc();
    let zeros = [0; 4096];
    for (calls, status) in [(4095_u16, 0), (4096, 7)] {
        let list = zeros.get(..usize::from(calls)).ok_or("a length")?;
        let limits = Limits::Listed(LimitList::copy(alloc, list)?);
        let run = crypt_over(alloc, limits, Limits::Never, "1", packets(alloc, 1)?)?;
        assert_eq!(rt; (run.status, stalls(&run)?), (status, u64::from(calls)));
    }
    Ok(())
}

#[test]
fn a_run_over_a_device_that_takes_nothing_ends(rt: HostRuntime) -> Result<(), Fail> {
    let alloc = rt.alloc();
    let capture = joined(alloc, &[&HEADER, &HEAD_OF_16, &[0; 16]])?;
    let run = crypt_over(alloc, Limits::Always(0), Limits::Never, "1", capture)?;
    assert_eq!(rt; run.status, 7);
    assert_eq!(rt; run.out.bytes(), RAISED.as_slice());
    let text =
        b"packets=0 success=0 auth_failed=0 invalid_args=0 short=0 passed=0\ndevice 0 operations=0\nstatus=7 stalled\n";
    assert_eq!(rt; run.report.bytes(), text.as_slice());
    Ok(())
}

#[test]
fn the_first_of_eight_devices_is_used(rt: HostRuntime) -> Result<(), Fail> {
    let alloc = rt.alloc();
    let devs = devices(alloc)?;
    let run = run_in_memory(alloc, &QUICK, &[], packets(alloc, 2)?, 1000, NOTHING, devs)?;
    let text =
        b"packets=2 success=2 auth_failed=0 invalid_args=0 short=0 passed=0\ndevice 0 operations=2\nstatus=0\n";
    assert_eq!(rt; run.report.bytes(), text.as_slice());
    assert_eq!(rt; run.devs.len(), 8);
    for (number, device) in run.devs.iter().enumerate() {
        let expected = if number == 0 { 2 } else { 0 };
        assert_eq!(rt; Driver::<Card>::stats(device).enqueued, expected);
    }
    Ok(())
}

fn logging(alloc: Global) -> Result<Vec<LogDriver<PlainDriver<Card>>>, Fail>
    ensures some { IfOk result (λ v. length v.items ≡ 1) }
    ensures idle { IfOk result (λ v. All (λ d. held_of (logged_of d) ≡ []) v.items) }
{
    let device = LogDriver::new(alloc, PlainDriver::new(alloc)?, 8)?;
    let mut devs = Vec::new(alloc);
    devs.push(device)?;
    Ok(devs)
}

// Every other packet passes.
#[test]
fn operations_are_numbered_and_not_packets(rt: HostRuntime) -> Result<(), Fail> {
    let alloc = rt.alloc();
    let mut capture = joined(alloc, &[&HEADER])?;
    for protocol in [17, 6, 17, 6, 17] {
        capture.extend_from_slice(&head_of(60))?;
        for place in 0..60 {
            capture.push(if place == 23 { protocol } else { 0 })?;
        }
    }
    let devs = logging(alloc)?;
    let run = run_in_memory(alloc, &CRYPT, BY_RULE, capture, 1000, NOTHING, devs)?;
    assert_eq!(rt; run.status, 0);
    let device = run.devs.first().ok_or("no device")?;
    let expected = [0, 1, 2].map(|pos| LogEntry {
        session: SessId(0),
        data_len: 46,
        pos,
    });
    assert_eq!(rt; device.log(), expected.as_slice());
    Ok(())
}

fn operation(alloc: Global, n: u32) -> Result<Op<Card>, Fail>
    ensures { IfOk result IsFresh }
{
    let seg = Seg::new(alloc, 0)?;
    let packet = Mbuf::new(alloc, seg).map_err(|_| "out of memory")?;
    let spec = OpSpec {
        session: SessId(n),
        iv: Iv::copy(&[]),
        aad: Aad::empty(alloc),
        cipher: Range { off: 0, len: 5 },
        auth: Range { off: 0, len: 0 },
        place: DigestPlace::Nowhere,
        digest: [0; 64],
        pos: u64::from(n),
    };
    Ok(Op::new(spec, packet, Card { packet: n, flow: 0 }))
}

#[test]
fn a_log_takes_no_more_than_it_has_room_for(rt: HostRuntime) -> Result<(), Fail> {
    let alloc = rt.alloc();
    let mut device = LogDriver::new(alloc, PlainDriver::<Card>::new(alloc)?, 1)?;
    let sessions = Arc::new(alloc, SessionTable::new(alloc)?)?;
    device.set_up(alloc, Kind::Plain, sessions, 8)?;
    let mut burst = OpBurst::new(alloc, 2)?;
    burst.push(operation(alloc, 0)?);
    burst.push(operation(alloc, 1)?);
    let accepted = device.enqueue_burst(&mut burst, 2);
    assert_eq!(rt; (accepted, burst.len()), (1, 1));
    assert_eq!(rt; Driver::<Card>::stalls(&device), 1);
    let entry = LogEntry {
        session: SessId(0),
        data_len: 5,
        pos: 0,
    };
    assert_eq!(rt; device.log(), [entry].as_slice());
    Ok(())
}
