//! Workers, schedulers and bursts for the tests.
ghost use Rattle.std.specs.Prelude.{◌≡◌, ◌≢◌, ◌≤◌, [], length, vec_len, IfOk, OnOk};
ghost use Rattle.std.specs.List.{All};
ghost use Rattle.crypto_op.specs.Op.{IsFresh};
ghost use Rattle.sched_core.specs.Stopped.{AreAlike};
ghost use Rattle.sched_modes.specs.Running.{AreIdle, pending};
ghost use Rattle.sched_core.specs.declared.mode.Mode.TheVariants.{MultiCore};

use crate::{Running, Stop, start};
use crypto_model::{DigestPlace, Range, SessId};
use crypto_op::{Aad, Iv, MAX_OPS, Op, OpBurst, OpSpec};
use dev_core::{Device, Driver, Kind, Limits, LogDriver, StallDriver};
use mbuf_chain::Mbuf;
use sched_core::{AttachRefused, Mode, Scheduler};
use seg_list::Seg;
use std::alloc::Global;
use std::sync::Arc;
use std::test::Fail;
use sym_engine::PlainDriver;
use sym_session::SessionTable;

/// A worker that logs, and stalls by these limits.
pub(super) type Worker = LogDriver<StallDriver<PlainDriver<u32>>>;

// An operation of a session that no table has, with this pos as its cargo too.
fn operation(alloc: Global, number: u32, data_len: u32) -> Result<Op<u32>, Fail>
    ensures { IfOk result IsFresh }
{
    let spec = OpSpec {
        session: SessId(7),
        iv: Iv::copy(b"sixteen bytes iv"),
        aad: Aad::empty(alloc),
        cipher: Range {
            off: 0,
            len: data_len,
        },
        auth: Range { off: 0, len: 0 },
        place: DigestPlace::Nowhere,
        digest: [0; 64],
        pos: 40 + u64::from(number),
    };
    let chain = Mbuf::new(alloc, Seg::new(alloc, 0)?).ok().ok_or("memory")?;
    Ok(Op::new(spec, chain, number))
}

/// Operations with these data lengths. They are numbered from 0 in their cargo, and their pos is 40 more.
pub(super) fn burst(alloc: Global, data_lens: &[u32]) -> Result<OpBurst<u32>, Fail>
    requires { length data_lens.now ≤ 16 }
    ensures { IfOk result (λ b. All IsFresh b.ops) }
{
    let mut burst = OpBurst::new(alloc, 16)?;
    for i in 0..data_lens.len() {
        burst.push(operation(alloc, i as u32, data_lens[i])?);
    }
    Ok(burst)
}

/// A device that was set up with this depth.
pub(super) fn worker(
    alloc: Global,
    sessions: Arc<SessionTable>,
    depth: usize,
    enqueue: Limits,
    dequeue: Limits,
) -> Result<Worker, Fail>
    ensures { IfOk result (λ d. ⟦<Worker as Driver<u32>>⟧.held d ≡ []) }
{
    let plain = PlainDriver::new(alloc)?;
    let stalling = StallDriver::new(plain, enqueue, dequeue);
    let mut device = LogDriver::new(alloc, stalling, 64)?;
    device.set_up(alloc, Kind::Plain, sessions, depth)?;
    Ok(device)
}

/// A vector of this one, which holds nothing.
pub(super) fn one<D: Driver<u32> + Drop>(alloc: Global, device: D) -> Result<Vec<D>, Fail>
    requires { D.held device ≡ [] }
    ensures { IfOk result (λ v. AreIdle D.Driver (vec_len v) v.items) }
{
    let mut devs = Vec::new(alloc);
    match devs.push(device) {
        Ok(()) => Ok(devs),
        Err(_) => Err(Fail::from("memory")),
    }
}

/// A vector of these two, which hold nothing.
pub(super) fn two<D: Driver<u32> + Drop>(alloc: Global, first: D, second: D) -> Result<Vec<D>, Fail>
    requires first { D.held first ≡ [] }
    requires second { D.held second ≡ [] }
    ensures { IfOk result (λ v. AreIdle D.Driver (vec_len v) v.items) }
{
    let mut devs = one(alloc, first)?;
    match devs.push(second) {
        Ok(()) => Ok(devs),
        Err(_) => Err(Fail::from("memory")),
    }
}

// Attaches the next n devices.
fn attach_all<D: Driver<u32>>(scheduler: &mut Scheduler<D>, n: usize) -> Result<(), AttachRefused>
    requires alike { AreAlike D.sessions scheduler.old }
    requires within { scheduler.old.workers ≤ length scheduler.old.devs }
    ensures alike { OnOk result (AreAlike D.sessions scheduler.new) }
    ensures within { OnOk result (scheduler.new.workers ≤ length scheduler.new.devs) }
    ensures devs { OnOk result (scheduler.new.devs ≡ scheduler.old.devs) }
    ensures mode { OnOk result (scheduler.new.mode ≡ scheduler.old.mode) }
{
    for _i in 0..n {
        scheduler.attach::<u32>()?;
    }
    Ok(())
}

/// A scheduler over these workers, that runs in this mode, and orders by a ring of this capacity or not at all.
pub(super) fn running<D: Driver<u32> + Drop>(
    alloc: Global,
    mode: Mode,
    ordering: bool,
    ring: usize,
    devs: Vec<D>,
) -> Result<Running<u32, D>, Fail>
    requires mode { mode ≢ MultiCore }
    requires ring { (1 ≤ ring) × (ring ≤ MAX_OPS) }
    requires idle { AreIdle D.Driver (vec_len devs) devs.items }
    ensures { IfOk result (λ r. pending r ≡ []) }
{
    let sessions = Arc::new(alloc, SessionTable::new(alloc)?)?;
    let n = devs.len();
    let mut scheduler = Scheduler::new(mode, ordering, sessions, devs);
    attach_all(&mut scheduler, n)?;
    Ok(start(alloc, scheduler, ring).ok().ok_or("not started")?)
}

/// Offers the whole burst, and answers how many were taken.
pub(super) fn offer<D: Driver<u32>>(
    running: &mut Running<u32, D>,
    burst: &mut OpBurst<u32>,
) -> usize
    requires { All IsFresh burst.old.ops }
    ensures { All IsFresh burst.new.ops }
{
    let len = burst.len();
    running.enqueue_burst(burst, len)
}

/// The numbers of the operations that come, at most so many, and why no more do.
pub(super) fn pull<D: Driver<u32>>(
    alloc: Global,
    running: &mut Running<u32, D>,
    max: usize,
) -> Result<(Vec<u32>, Stop), Fail> {
    let mut out = OpBurst::new(alloc, 16)?;
    let got = running.pull(&mut out, max);
    Ok((numbers(alloc, &out)?, got.stop))
}

/// The numbers of a burst's operations.
pub(super) fn numbers(alloc: Global, burst: &OpBurst<u32>) -> Result<Vec<u32>, Fail> {
    let mut numbers = Vec::new(alloc);
    for i in 0..burst.len() {
        numbers.push(*burst.get(i).cargo())?;
    }
    Ok(numbers)
}

/// The pos of each of a burst's operations.
pub(super) fn positions(alloc: Global, burst: &OpBurst<u32>) -> Result<Vec<u64>, Fail> {
    let mut positions = Vec::new(alloc);
    for i in 0..burst.len() {
        positions.push(burst.get(i).spec().pos)?;
    }
    Ok(positions)
}
