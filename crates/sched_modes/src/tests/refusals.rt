use super::making::{one, running};
use crate::{Running, StartRefused, start};
use crypto_model::{CipherAlg, Dir};
use dev_core::{Device, Driver, Kind};
use sched_core::{AttachRefused, Mode, Scheduler};
use std::alloc::Global;
use std::sync::Arc;
use std::test::Fail;
use sym_engine::PlainDriver;
use sym_session::{KeyBytes, Session, SessionTable, Xform};

// A scheduler over so many plain devices with these sessions, which has none itself.
fn scheduler(
    alloc: Global,
    mode: Mode,
    table: SessionTable,
    n: usize,
) -> Result<Scheduler<PlainDriver<u32>>, Fail> {
    let none = Arc::new(alloc, SessionTable::new(alloc)?)?;
    let table = Arc::new(alloc, table)?;
    let mut devs = Vec::new(alloc);
    for _i in 0..n {
        let mut device: PlainDriver<u32> = PlainDriver::new(alloc)?;
        device.set_up(alloc, Kind::Plain, table.clone()?, 8)?;
        devs.push(device)?;
    }
    Ok(Scheduler::new(mode, false, none, devs))
}

#[test]
fn attach_says_why_it_attaches_nothing(rt: HostRuntime) -> Result<(), Fail> {
    let alloc = rt.alloc();
    let table = SessionTable::new(alloc)?;
    let mut three = scheduler(alloc, Mode::FailOver, table, 3)?;
    for answer in [Ok(0), Ok(1), Err(AttachRefused::TooManyWorkers)] {
        assert_eq!(rt; three.attach::<u32>(), answer);
    }
    assert_eq!(rt; three.release().len(), 3);

    let table = SessionTable::new(alloc)?;
    let mut one = scheduler(alloc, Mode::RoundRobin, table, 1)?;
    for answer in [Ok(0), Err(AttachRefused::NoDevice)] {
        assert_eq!(rt; one.attach::<u32>(), answer);
    }

    let mut table = SessionTable::new(alloc)?;
    let key = KeyBytes::copy(alloc, &[0; 16])?;
    let xform = Xform::Cipher {
        alg: CipherAlg::AesCtr,
        dir: Dir::Encrypt,
        key,
    };
    table
        .add(Session::make(alloc, &[xform])?)
        .ok()
        .ok_or("full")?;
    let mut other = scheduler(alloc, Mode::MultiCore, table, 1)?;
    assert_eq!(rt; other.attach::<u32>(), Err(AttachRefused::SessionsDiffer));
    Ok(())
}

#[test]
fn a_mode_that_needs_two_workers_is_not_started_with_one(rt: HostRuntime) -> Result<(), Fail> {
    let alloc = rt.alloc();
    for mode in [Mode::FailOver, Mode::PacketSize] {
        let none = Arc::new(alloc, SessionTable::new(alloc)?)?;
        let devs: Vec<PlainDriver<u32>> = one(alloc, PlainDriver::new(alloc)?)?;
        let mut scheduler = Scheduler::new(mode, true, none, devs);
        scheduler.attach::<u32>()?;
        let refused: Result<Running<u32, PlainDriver<u32>>, _> = start(alloc, scheduler, 8);
        let Err(StartRefused::TooFewWorkers(back)) = refused else {
            return Err(Fail::from("started"));
        };
        assert_eq!(rt; back.release().len(), 1);
    }
    Ok(())
}

fn sent<T: Send>(value: T) -> T {
    value
}

// Whichever mode it is in, over devices that can be sent.
fn sent_running<D: Driver<u32> + Send>(running: Running<u32, D>) -> Running<u32, D> {
    match running {
        Running::Round(scheduler) => Running::Round(sent(scheduler)),
        Running::Size(scheduler) => Running::Size(sent(scheduler)),
        Running::Fail(scheduler) => Running::Fail(sent(scheduler)),
    }
}

fn sent_stopped<D: Send>(scheduler: Scheduler<D>) -> Scheduler<D> {
    sent(scheduler)
}

#[test]
fn a_scheduler_can_be_sent_whether_it_runs_or_not(rt: HostRuntime) -> Result<(), Fail> {
    let alloc = rt.alloc();
    let device: PlainDriver<u32> = PlainDriver::new(alloc)?;
    let running = running(alloc, Mode::RoundRobin, true, 4, one(alloc, device)?)?;
    let stopped = sent_running(running).break_up();
    assert_eq!(rt; sent_stopped(stopped).release().len(), 1);
    Ok(())
}
