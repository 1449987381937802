//! `crypt` and `forward` over several devices.
ghost use Rattle.std.specs.Prelude.{◌≡◌, ◌≤◌, ◌<◌, [], length, IfOk, All};
ghost use Rattle.sym_engine.specs.Driver.{held_of};
ghost use Rattle.dev_core.specs.Stall.{inner_of};
ghost use Rattle.dev_core.specs.Log.{logged_of};

use super::crypt::{BY_RULE, SEALS, head_of, usual_packets};
use super::devices::packets;
use super::{Ended, HEADER, NOTHING, joined, run_in_memory};
use crate::devices;
use crypto_op::Card;
use dev_core::{Driver, LimitList, Limits, LogDriver, StallDriver};
use std::alloc::Global;
use std::process::Abort;
use std::test::Fail;
use sym_engine::PlainDriver;

const TWO: &str = "mode=round-robin,worker=plain,worker=plain";

const FORWARD: [&str; 5] = ["forward", "--vdev", TWO, "--sessions", "f"];

fn words<'a>(vdev: &'a str, burst: &'a str) -> [&'a str; 7] {
    ["crypt", "--vdev", vdev, "--sessions", "f", "--burst", burst]
}

// The limits of a device's enqueues and of its dequeues.
type Pair = (Limits, Limits);

type Stalling = StallDriver<PlainDriver<Card>>;

fn stalling(alloc: Global, first: Pair, second: Pair) -> Result<Vec<Stalling>, Fail>
    ensures two { IfOk result (λ v. length v.items ≡ 2) }
    ensures idle { IfOk result (λ v. All (λ d. held_of (inner_of d) ≡ []) v.items) }
{
    let mut devs = Vec::new(alloc);
    devs.push(StallDriver::new(PlainDriver::new(alloc)?, first.0, first.1))?;
    devs.push(StallDriver::new(PlainDriver::new(alloc)?, second.0, second.1))?;
    Ok(devs)
}

// How many operations the first two devices took, and how often they have stalled together.
fn taken<D: Driver<Card>>(run: &Ended<D>) -> Result<(u64, u64, u64), Fail> {
    let [first, second, ..] = run.devs.as_slice() else {
        return Err(Fail::from("no two devices"));
    };
    let stalls = first.stalls().saturating_add(second.stalls());
    Ok((first.stats().enqueued, second.stats().enqueued, stalls))
}

#[test]
fn two_workers_take_what_they_can(rt: HostRuntime) -> Result<(), Fail> {
    let alloc = rt.alloc();
    let free = || (Limits::Never, Limits::Never);
    let listed = Limits::Listed(LimitList::copy(alloc, &[31])?);
    let cases = [
        (free(), (Limits::Always(0), Limits::Never), 0, 64, 0),
        (
            (Limits::Always(0), Limits::Never),
            (Limits::Always(0), Limits::Never),
            7,
            0,
            0,
        ),
        (
            (Limits::Never, Limits::Always(1)),
            (Limits::Never, Limits::Always(1)),
            0,
            32,
            32,
        ),
        (
            (Limits::Never, Limits::Always(0)),
            (Limits::Never, Limits::Always(0)),
            7,
            32,
            32,
        ),
        ((listed, Limits::Never), free(), 0, 63, 1),
    ];
    for (first, second, status, operations, others) in cases {
        let devs = stalling(alloc, first, second)?;
        let words = words(TWO, "32");
        let run = run_in_memory(
            alloc,
            &words,
            SEALS,
            packets(alloc, 64)?,
            1000,
            NOTHING,
            devs,
        )?;
        let (a, b, _stalls) = taken(&run)?;
        assert_eq!(rt; (run.status, a, b), (status, operations, others));
    }
    Ok(())
}

// Device 0 takes one operation of its first burst. `crypt` offers the 31 that are left to device 1, where an adapter fills its
// in buffer up again before it offers. Both write the same capture.
#[test]
fn an_adapter_fills_up_before_it_offers_again(rt: HostRuntime) -> Result<(), Fail> {
    let alloc = rt.alloc();
    let mut written: Vec<u8> = Vec::new(alloc);
    for (words, operations, others) in [
        (words(TWO, "32").as_slice(), 33, 31),
        (FORWARD.as_slice(), 32, 32),
    ] {
        let listed = Limits::Listed(LimitList::copy(alloc, &[1])?);
        let devs = stalling(
            alloc,
            (listed, Limits::Never),
            (Limits::Never, Limits::Never),
        )?;
        let capture = packets(alloc, 64)?;
        let run = run_in_memory(alloc, words, SEALS, capture, 1000, NOTHING, devs)?;
        let (a, b, stalls) = taken(&run)?;
        assert_eq!(rt; (run.status, a, b, stalls), (0, operations, others, 1));
        if written.is_empty() {
            written.extend_from_slice(run.out.bytes())?;
        }
        assert_eq!(rt; run.out.bytes(), written.as_slice());
    }
    Ok(())
}

// What a stalled adapter's devices hold comes back in them.
#[test]
fn a_stalled_adapter_gives_its_devices_back(rt: HostRuntime) -> Result<(), Fail> {
    let alloc = rt.alloc();
    let keeps = || (Limits::Never, Limits::Always(0));
    let devs = stalling(alloc, keeps(), keeps())?;
    let capture = packets(alloc, 64)?;
    let run = run_in_memory(alloc, &FORWARD, SEALS, capture, 1000, NOTHING, devs)?;
    let (a, b, _stalls) = taken(&run)?;
    assert_eq!(rt; (run.status, a, b), (7, 32, 32));
    for dev in run.devs.iter() {
        assert_eq!(rt; Driver::<Card>::held(dev), 32);
    }
    Ok(())
}

// Each turn moves one operation, and the limit cuts in every turn but those that offer a single one.
#[test]
fn workers_may_take_one_at_a_time(rt: HostRuntime) -> Result<(), Fail> {
    let alloc = rt.alloc();
    let one = || (Limits::Always(1), Limits::Never);
    let devs = stalling(alloc, one(), one())?;
    let words = words(TWO, "32");
    let capture = packets(alloc, 10_000)?;
    let run = run_in_memory(alloc, &words, SEALS, capture, 1000, NOTHING, devs)?;
    assert_eq!(rt; run.status, 0);
    assert_eq!(rt; taken(&run)?, (5000, 5000, 9687));
    Ok(())
}

// The first worker keeps the four bursts that it has room for. With ordering on, all that the second did waits behind the
// first of them, until the ring's 1,024 places are taken; with ordering off the second does all others.
#[test]
fn a_ring_holds_back_what_must_wait(rt: HostRuntime) -> Result<(), Fail> {
    let alloc = rt.alloc();
    let ordered = "mode=round-robin,worker=plain,worker=plain,ordering=enable";
    for (vdev, operations, others) in [(ordered, 128, 896), (TWO, 128, 1872)] {
        let keeps = (Limits::Never, Limits::Always(0));
        let devs = stalling(alloc, keeps, (Limits::Never, Limits::Never))?;
        let words = words(vdev, "32");
        let capture = packets(alloc, 2000)?;
        let run = run_in_memory(alloc, &words, SEALS, capture, 1000, NOTHING, devs)?;
        let (a, b, _stalls) = taken(&run)?;
        assert_eq!(rt; (run.status, a, b), (7, operations, others));
    }
    Ok(())
}

// Short data goes to the second worker, as the report tells.
#[test]
fn devices_are_told_in_their_order(rt: HostRuntime) -> Result<(), Fail> {
    let alloc = rt.alloc();
    let vdev = "mode=packet-size-distr,worker=plain,worker=plain,ordering=enable";
    let capture = usual_packets(alloc)?;
    let words = words(vdev, "32");
    let devs = devices(alloc)?;
    let run = run_in_memory(alloc, &words, BY_RULE, capture, 1000, NOTHING, devs)?;
    let report =
        b"packets=4 success=2 auth_failed=0 invalid_args=0 short=0 passed=2\ndevice 0 operations=0\ndevice 1 operations=2\nstatus=0\n";
    assert_eq!(rt; run.report.bytes(), report.as_slice());
    assert_eq!(rt; run.out.bytes().len(), 24 + 4 * 16 + 76 + 1514 + 114 + 342);
    assert_eq!(rt; run.devs.len(), 8);
    Ok(())
}

// How long packet n is.
fn length_of(n: u32) -> u32
    requires { n < 65 }
    ensures { result < 512 }
{
    97 * n % 241 + 20
}

// Sixty-five packets of mixed lengths.
fn mixed_packets(alloc: Global) -> Result<Vec<u8>, Fail> {
    let mut capture = joined(alloc, &[&HEADER])?;
    for n in 0..65 {
        let length = length_of(n);
        capture.extend_from_slice(&head_of(length))?;
        for _i in 0..length {
            capture.push(7)?;
        }
    }
    Ok(capture)
}

fn logging(alloc: Global) -> Result<Vec<LogDriver<PlainDriver<Card>>>, Fail>
    ensures four { IfOk result (λ v. length v.items ≡ 4) }
    ensures idle { IfOk result (λ v. All (λ d. held_of (logged_of d) ≡ []) v.items) }
{
    let mut devs = Vec::new(alloc);
    for _n in 0..4usize {
        devs.push(LogDriver::new(alloc, PlainDriver::new(alloc)?, 65)?)?;
    }
    Ok(devs)
}

// What a device has logged: the lengths of these packets, in this order.
fn expect_log<D>(
    rt: &impl Abort,
    devs: &Vec<LogDriver<D>>,
    place: usize,
    numbers: &[u64],
) -> Result<(), Fail> {
    let log = devs.get(place).ok_or("no device")?.log();
    assert_eq!(rt; log.len(), numbers.len());
    for (entry, number) in log.iter().zip(numbers) {
        assert_eq!(rt; entry.pos, *number);
        assert!(rt; *number < 65);
        assert_eq!(rt; entry.data_len, length_of(*number as u32));
    }
    Ok(())
}

// The numbers of the operations that each of four devices gets, as checks/values.py works them out.
const DEALT: [(&str, &str, [&[u64]; 4]); 5] = [
    (
        "mode=round-robin,worker=plain,worker=plain,worker=plain",
        "7",
        [
            &[
                0, 1, 2, 3, 4, 5, 6, 21, 22, 23, 24, 25, 26, 27, 42, 43, 44, 45, 46, 47, 48, 63, 64,
            ],
            &[
                7, 8, 9, 10, 11, 12, 13, 28, 29, 30, 31, 32, 33, 34, 49, 50, 51, 52, 53, 54, 55,
            ],
            &[
                14, 15, 16, 17, 18, 19, 20, 35, 36, 37, 38, 39, 40, 41, 56, 57, 58, 59, 60, 61, 62,
            ],
            &[],
        ],
    ),
    (
        "mode=round-robin,worker=plain,worker=plain,ordering=enable",
        "32",
        [
            &[
                0, 1, 2, 3, 4, 5, 6, 7, 8, 9, 10, 11, 12, 13, 14, 15, 16, 17, 18, 19, 20, 21, 22,
                23, 24, 25, 26, 27, 28, 29, 30, 31, 64,
            ],
            &[
                32, 33, 34, 35, 36, 37, 38, 39, 40, 41, 42, 43, 44, 45, 46, 47, 48, 49, 50, 51, 52,
                53, 54, 55, 56, 57, 58, 59, 60, 61, 62, 63,
            ],
            &[],
            &[],
        ],
    ),
    (
        "mode=packet-size-distr,worker=plain,worker=plain",
        "32",
        [
            &[
                2, 4, 7, 9, 12, 14, 17, 19, 21, 22, 24, 26, 27, 29, 31, 32, 34, 36, 37, 39, 41, 42,
                44, 46, 47, 49, 51, 52, 54, 56, 57, 59, 61, 62, 64,
            ],
            &[
                0, 1, 3, 5, 6, 8, 10, 11, 13, 15, 16, 18, 20, 23, 25, 28, 30, 33, 35, 38, 40, 43,
                45, 48, 50, 53, 55, 58, 60, 63,
            ],
            &[],
            &[],
        ],
    ),
    (
        "mode=packet-size-distr,worker=plain,worker=plain,ordering=enable,mode_param=threshold:64",
        "5",
        [
            &[
                1, 2, 3, 4, 6, 7, 8, 9, 11, 12, 13, 14, 16, 17, 18, 19, 21, 22, 23, 24, 26, 27, 28,
                29, 31, 32, 33, 34, 36, 37, 38, 39, 41, 42, 43, 44, 46, 47, 48, 49, 51, 52, 53, 54,
                56, 57, 58, 59, 61, 62, 63, 64,
            ],
            &[0, 5, 10, 15, 20, 25, 30, 35, 40, 45, 50, 55, 60],
            &[],
            &[],
        ],
    ),
    (
        "mode=fail-over,worker=plain,worker=plain",
        "32",
        [
            &[
                0, 1, 2, 3, 4, 5, 6, 7, 8, 9, 10, 11, 12, 13, 14, 15, 16, 17, 18, 19, 20, 21, 22,
                23, 24, 25, 26, 27, 28, 29, 30, 31, 32, 33, 34, 35, 36, 37, 38, 39, 40, 41, 42, 43,
                44, 45, 46, 47, 48, 49, 50, 51, 52, 53, 54, 55, 56, 57, 58, 59, 60, 61, 62, 63, 64,
            ],
            &[],
            &[],
            &[],
        ],
    ),
];

#[test]
fn each_mode_deals_as_it_says(rt: HostRuntime) -> Result<(), Fail> {
    let alloc = rt.alloc();
    for (vdev, burst, lists) in DEALT {
        let words = words(vdev, burst);
        let devs = logging(alloc)?;
        let capture = mixed_packets(alloc)?;
        let run = run_in_memory(alloc, &words, SEALS, capture, 1000, NOTHING, devs)?;
        assert_eq!(rt; run.status, 0);
        for (place, list) in lists.iter().enumerate() {
            expect_log(&rt, &run.devs, place, list)?;
        }
    }
    Ok(())
}
