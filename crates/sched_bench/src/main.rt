//! Times null operations, whose session no table has, in bursts of 32 that go into a queue pair and come back,
//! again and again. The words say into which, and how many bursts: `none` for no queue pair at all, `device` for
//! one plain device, or a mode, `round-robin`, `packet-size` or `fail-over`, of a scheduler over two plain
//! devices, which orders where a third word stands behind. Without words it is 1,000 bursts through a device.
//! How many operations came back is printed on standard output, and the nanoseconds on standard error.
#![tactic(auto)]

ghost use Rattle.std.specs.Prelude.{◌≡◌, ◌≢◌, ◌≤◌, [], length, IfOk, OnOk};
ghost use Rattle.std.specs.List.{All};
ghost use Rattle.crypto_op.specs.Op.{IsFresh};
ghost use Rattle.sym_engine.specs.Driver.{held_of, sessions_of};
ghost use Rattle.sched_core.specs.Stopped.{AreAlike};
ghost use Rattle.sched_core.specs.declared.mode.Mode.TheVariants.{MultiCore};

use anyhow::Result;
use crypto_model::{DigestPlace, OutOfMemory, Range, SessId};
use crypto_op::{Aad, Iv, Op, OpBurst, OpSpec};
use dev_core::{Device, Driver, Kind};
use mbuf_chain::Mbuf;
use sched_core::{AttachRefused, Mode, Scheduler};
use sched_modes::{Running, start};
use seg_list::Seg;
use std::alloc::Global;
use std::env;
use std::sync::Arc;
use std::time::Instant;
use sym_engine::PlainDriver;
use sym_session::SessionTable;

const BURST: usize = 32;

const RING: usize = 1024;

fn operation(alloc: Global, number: u32) -> Result<Op<u32>>
    ensures { IfOk result IsFresh }
{
    let spec = OpSpec {
        session: SessId(7),
        iv: Iv::copy(b"sixteen bytes iv"),
        aad: Aad::empty(alloc),
        cipher: Range { off: 0, len: 64 },
        auth: Range { off: 0, len: 0 },
        place: DigestPlace::Nowhere,
        digest: [0; 64],
        pos: u64::from(number),
    };
    match Mbuf::new(alloc, Seg::new(alloc, 0)?) {
        Ok(chain) => Ok(Op::new(spec, chain, number)),
        Err(_seg) => Err(OutOfMemory.into()),
    }
}

// Adds an operation, where there is room.
fn add(burst: &mut OpBurst<u32>, op: Op<u32>)
    requires burst { All IsFresh burst.old.ops }
    requires op { IsFresh op }
    ensures { All IsFresh burst.new.ops }
{
    if burst.room() != 0 {
        burst.push(op);
    }
}

// A burst of operations that aren't processed.
fn full_burst(alloc: Global) -> Result<OpBurst<u32>>
    ensures { IfOk result (λ b. All IsFresh b.ops) }
{
    let mut burst = OpBurst::new(alloc, BURST)?;
    for number in 0..BURST {
        add(&mut burst, operation(alloc, number as u32)?);
    }
    Ok(burst)
}

fn device(alloc: Global) -> Result<PlainDriver<u32>>
    ensures { IfOk result (λ d. held_of d ≡ []) }
{
    let sessions = Arc::new(alloc, SessionTable::new(alloc)?)?;
    let mut device = PlainDriver::new(alloc)?;
    device.set_up(alloc, Kind::Plain, sessions, 128)?;
    Ok(device)
}

fn attach_all(scheduler: &mut Scheduler<PlainDriver<u32>>, n: usize) -> Result<(), AttachRefused>
    requires alike { AreAlike sessions_of scheduler.old }
    requires within { scheduler.old.workers ≤ length scheduler.old.devs }
    ensures alike { OnOk result (AreAlike sessions_of scheduler.new) }
    ensures within { OnOk result (scheduler.new.workers ≤ length scheduler.new.devs) }
    ensures devs { OnOk result (scheduler.new.devs ≡ scheduler.old.devs) }
    ensures mode { OnOk result (scheduler.new.mode ≡ scheduler.old.mode) }
{
    for _i in 0..n {
        scheduler.attach::<u32>()?;
    }
    Ok(())
}

// A scheduler over two plain devices.
fn scheduler(alloc: Global, mode: Mode, ordering: bool) -> Result<Running<u32, PlainDriver<u32>>>
    requires { mode ≢ MultiCore }
{
    let sessions = Arc::new(alloc, SessionTable::new(alloc)?)?;
    let devs = vec![in alloc; device(alloc)?, device(alloc)?]?;
    let mut scheduler = Scheduler::new(mode, ordering, sessions, devs);
    attach_all(&mut scheduler, 2)?;
    match start(alloc, scheduler, RING) {
        Ok(running) => Ok(running),
        Err(_scheduler) => Err(OutOfMemory.into()),
    }
}

// Moves operations that came back into a burst, not processed, and answers how many.
fn renew_all(back: &mut OpBurst<u32>, burst: &mut OpBurst<u32>) -> u64
    requires { All IsFresh burst.old.ops }
    ensures { All IsFresh burst.new.ops }
{
    let mut renewed = 0u64;
    for _i in 0..burst.room() {
        match back.pop() {
            Some(mut op) => {
                op.renew();
                add(burst, op);
                renewed = renewed.wrapping_add(1);
            }
            None => break,
        }
    }
    renewed
}

fn offer<D: Driver<u32>>(driver: &mut D, burst: &mut OpBurst<u32>)
    requires { All IsFresh burst.old.ops }
    ensures { All IsFresh burst.new.ops }
{
    let len = burst.len();
    driver.enqueue_burst(burst, len);
}

// So many bursts go in and come back. Answers how many operations did.
fn go_round<D: Driver<u32>>(alloc: Global, driver: &mut D, bursts: u32) -> Result<u64> {
    let mut burst = full_burst(alloc)?;
    let mut back = OpBurst::new(alloc, BURST)?;
    let mut all = 0u64;
    for _i in 0..bursts {
        offer(driver, &mut burst);
        driver.dequeue_burst(&mut back, BURST);
        all = all.wrapping_add(renew_all(&mut back, &mut burst));
    }
    Ok(all)
}

// Takes a burst's operations out and puts them back, not processed, and answers how many.
fn renew_in_place(burst: &mut OpBurst<u32>) -> u64
    requires { All IsFresh burst.old.ops }
    ensures { All IsFresh burst.new.ops }
{
    let mut renewed = 0u64;
    for _i in 0..burst.len() {
        match burst.pop() {
            Some(mut op) => {
                op.renew();
                add(burst, op);
                renewed = renewed.wrapping_add(1);
            }
            None => break,
        }
    }
    renewed
}

// The same without a queue pair, for the time that the bursts themselves take.
fn go_nowhere(alloc: Global, bursts: u32) -> Result<u64> {
    let mut burst = full_burst(alloc)?;
    let mut all = 0u64;
    for _i in 0..bursts {
        all = all.wrapping_add(renew_in_place(&mut burst));
    }
    Ok(all)
}

fn go(alloc: Global, place: &str, ordering: bool, bursts: u32) -> Result<u64> {
    let mode = match place {
        "none" => return go_nowhere(alloc, bursts),
        "round-robin" => Mode::RoundRobin,
        "packet-size" => Mode::PacketSize,
        "fail-over" => Mode::FailOver,
        _ => return go_round(alloc, &mut device(alloc)?, bursts),
    };
    go_round(alloc, &mut scheduler(alloc, mode, ordering)?, bursts)
}

fn main(rt: HostRuntime) -> Result<()> {
    let alloc = rt.alloc();
    let mut words = env::args(&rt)?.skip(1);
    let place = words.next();
    let bursts: u32 = match words.next() {
        Some(word) => word.as_str().parse()?,
        None => 1_000,
    };
    let ordering = words.next().is_some();
    let place = match &place {
        Some(word) => word.as_str(),
        None => "device",
    };
    let start = Instant::now(&rt)?;
    let operations = go(alloc, place, ordering, bursts)?;
    let nanos = start.elapsed(&rt)?.as_nanos().max(1);
    println!(rt; "operations={operations}")?;
    eprintln!(rt; "nanoseconds={nanos}")?;
    Ok(())
}
