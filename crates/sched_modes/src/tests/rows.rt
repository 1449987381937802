ghost use Rattle.std.specs.Prelude.{IfOk, vec_len};
ghost use Rattle.std.specs.List.{All};
ghost use Rattle.crypto_op.specs.Op.{IsFresh};
ghost use Rattle.sched_modes.specs.Running.{AreIdle};

use super::making::{Worker, burst, numbers, offer, one, positions, pull, running, two, worker};
use crate::{Running, Stop};
use crypto_op::OpBurst;
use dev_core::{Driver, LimitList, Limits, LogDriver};
use sched_core::Mode;
use std::alloc::Global;
use std::process::Abort;
use std::sync::Arc;
use std::test::Fail;
use sym_session::SessionTable;

// Two workers of this depth. The first has these limits, and the second has one for its enqueues.
fn pair(
    alloc: Global,
    depth: usize,
    enqueue: Limits,
    dequeue: Limits,
    behind: Limits,
) -> Result<Vec<Worker>, Fail>
    ensures { IfOk result (λ v. AreIdle ⟦<Worker as Driver<u32>>⟧ (vec_len v) v.items) }
{
    let table = Arc::new(alloc, SessionTable::new(alloc)?)?;
    let first = worker(alloc, table.clone()?, depth, enqueue, dequeue)?;
    let second = worker(alloc, table, depth, behind, Limits::Never)?;
    two(alloc, first, second)
}

// A pull of at most so many gives these operations, and ends so.
fn assert_pull<D: Driver<u32>>(
    rt: &impl Abort,
    alloc: Global,
    running: &mut Running<u32, D>,
    max: usize,
    expected: &[u32],
    stop: Stop,
) -> Result<(), Fail> {
    let (came, end) = pull(alloc, running, max)?;
    assert_eq!(rt; (came.as_slice(), end), (expected, stop));
    Ok(())
}

// An offer of the burst takes so many and leaves so many.
fn assert_offer<D: Driver<u32>>(
    rt: &impl Abort,
    running: &mut Running<u32, D>,
    burst: &mut OpBurst<u32>,
    taken: usize,
    left: usize,
)
    requires { All IsFresh burst.old.ops }
    ensures { All IsFresh burst.new.ops }
{
    assert_eq!(rt; (offer(running, burst), burst.len()), (taken, left));
}

// Six operations over two workers of depth 4.
fn six_in_turn<D: Driver<u32> + Drop>(
    rt: &impl Abort,
    alloc: Global,
    mut running: Running<u32, D>,
) -> Result<Vec<D>, Fail> {
    let mut six = burst(alloc, &[16; 6])?;
    assert_offer(rt, &mut running, &mut six, 4, 2);
    assert_offer(rt, &mut running, &mut six, 2, 0);
    match running.stop() {
        Ok(_stopped) => Err(Fail::from("stopped")),
        Err(pending) => {
            assert_eq!(rt; pending.n, 6);
            Ok(pending.running.break_up().release())
        }
    }
}

// What a device has logged, by the numbers that the operations had as pos.
fn assert_log<D>(
    rt: &impl Abort,
    devs: &Vec<LogDriver<D>>,
    place: usize,
    expected: &[u64],
) -> Result<(), Fail> {
    let log = devs.get(place).ok_or("no device")?.log();
    assert_eq!(rt; log.len(), expected.len());
    for (entry, pos) in log.iter().zip(expected) {
        assert_eq!(rt; entry.pos, *pos);
    }
    Ok(())
}

// Data of three lengths, where only long data is taken.
fn three_by_size<D: Driver<u32> + Drop>(
    rt: &impl Abort,
    alloc: Global,
    mut running: Running<u32, D>,
) -> Result<Vec<D>, Fail> {
    let mut three = burst(alloc, &[128, 127, 200])?;
    assert_offer(rt, &mut running, &mut three, 1, 2);
    assert_eq!(rt; numbers(alloc, &three)?.as_slice(), [1, 2].as_slice());
    assert_pull(rt, alloc, &mut running, 16, &[0], Stop::Empty)?;
    Ok(running.break_up().release())
}

// Five operations, of which the first worker takes two and the second three.
fn five_whole<D: Driver<u32> + Drop>(
    rt: &impl Abort,
    alloc: Global,
    mut running: Running<u32, D>,
) -> Result<Vec<D>, Fail> {
    let mut five = burst(alloc, &[16; 5])?;
    assert_offer(rt, &mut running, &mut five, 5, 0);
    assert_pull(rt, alloc, &mut running, 3, &[0, 1, 2], Stop::Max)?;
    assert_pull(rt, alloc, &mut running, 16, &[3, 4], Stop::Empty)?;
    match running.stop() {
        Ok(stopped) => Ok(stopped.release()),
        Err(_pending) => Err(Fail::from("pending")),
    }
}

// The same, where the first worker gives nothing back.
fn five_stuck<D: Driver<u32> + Drop>(
    rt: &impl Abort,
    alloc: Global,
    mut running: Running<u32, D>,
) -> Result<(), Fail> {
    let mut five = burst(alloc, &[16; 5])?;
    assert_offer(rt, &mut running, &mut five, 5, 0);
    assert_pull(rt, alloc, &mut running, 16, &[], Stop::NotYet(2))?;
    assert_eq!(rt; (running.pending(), running.stalls()), (5, 2));
    Ok(())
}

// Five operations, of which three are taken, and then the other two.
fn five_in_parts<D: Driver<u32> + Drop>(
    rt: &impl Abort,
    alloc: Global,
    mut running: Running<u32, D>,
) -> Result<Vec<D>, Fail> {
    let mut five = burst(alloc, &[16; 5])?;
    assert_offer(rt, &mut running, &mut five, 3, 2);
    assert_eq!(rt; positions(alloc, &five)?.as_slice(), [43, 44].as_slice());
    assert_offer(rt, &mut running, &mut five, 2, 0);
    Ok(running.break_up().release())
}

// Six operations, where the ring has four places.
fn six_through_four<D: Driver<u32> + Drop>(
    rt: &impl Abort,
    alloc: Global,
    mut running: Running<u32, D>,
) -> Result<(), Fail> {
    let mut six = burst(alloc, &[16; 6])?;
    assert_offer(rt, &mut running, &mut six, 4, 2);
    assert_offer(rt, &mut running, &mut six, 0, 2);
    assert_pull(rt, alloc, &mut running, 1, &[0], Stop::Max)?;
    assert_offer(rt, &mut running, &mut six, 1, 1);
    Ok(())
}

// Seven operations, where six are taken.
fn seven_through_both<D: Driver<u32> + Drop>(
    rt: &impl Abort,
    alloc: Global,
    mut running: Running<u32, D>,
) -> Result<(), Fail> {
    let mut seven = burst(alloc, &[16; 7])?;
    assert_offer(rt, &mut running, &mut seven, 6, 1);
    assert_pull(
        rt,
        alloc,
        &mut running,
        16,
        &[0, 1, 2, 3, 4, 5],
        Stop::Empty,
    )
}

#[test]
fn a_burst_for_one_worker_is_not_spilled_to_the_next(rt: HostRuntime) -> Result<(), Fail> {
    let alloc = rt.alloc();
    let workers = pair(alloc, 4, Limits::Never, Limits::Never, Limits::Never)?;
    let devs = six_in_turn(
        &rt,
        alloc,
        running(alloc, Mode::RoundRobin, true, 16, workers)?,
    )?;
    assert_log(&rt, &devs, 0, &[0, 1, 2, 3])?;
    assert_log(&rt, &devs, 1, &[4, 5])
}

#[test]
fn a_call_by_size_ends_at_the_first_operation_that_is_refused(rt: HostRuntime) -> Result<(), Fail> {
    let alloc = rt.alloc();
    let workers = pair(alloc, 8, Limits::Never, Limits::Never, Limits::Always(0))?;
    let devs = three_by_size(
        &rt,
        alloc,
        running(alloc, Mode::PacketSize, false, 8, workers)?,
    )?;
    assert_log(&rt, &devs, 0, &[40])
}

#[test]
fn a_second_worker_takes_what_the_first_refuses(rt: HostRuntime) -> Result<(), Fail> {
    let alloc = rt.alloc();
    let limits = Limits::Listed(LimitList::copy(alloc, &[2])?);
    let workers = pair(alloc, 8, limits, Limits::Never, Limits::Never)?;
    let devs = five_whole(
        &rt,
        alloc,
        running(alloc, Mode::FailOver, true, 8, workers)?,
    )?;
    assert_log(&rt, &devs, 0, &[0, 1])?;
    assert_log(&rt, &devs, 1, &[2, 3, 4])
}

#[test]
fn what_comes_back_waits_for_the_first(rt: HostRuntime) -> Result<(), Fail> {
    let alloc = rt.alloc();
    let limits = Limits::Listed(LimitList::copy(alloc, &[2])?);
    let workers = pair(alloc, 8, limits, Limits::Always(0), Limits::Never)?;
    five_stuck(
        &rt,
        alloc,
        running(alloc, Mode::FailOver, true, 8, workers)?,
    )
}

#[test]
fn a_refused_operation_keeps_its_place_in_the_order(rt: HostRuntime) -> Result<(), Fail> {
    let alloc = rt.alloc();
    let workers = pair(
        alloc,
        8,
        Limits::Always(2),
        Limits::Never,
        Limits::Always(1),
    )?;
    let devs = five_in_parts(
        &rt,
        alloc,
        running(alloc, Mode::FailOver, true, 8, workers)?,
    )?;
    assert_log(&rt, &devs, 0, &[0, 1, 3, 4])?;
    assert_log(&rt, &devs, 1, &[2])
}

#[test]
fn a_full_ring_takes_nothing(rt: HostRuntime) -> Result<(), Fail> {
    let alloc = rt.alloc();
    let table = Arc::new(alloc, SessionTable::new(alloc)?)?;
    let alone = one(
        alloc,
        worker(alloc, table, 8, Limits::Never, Limits::Never)?,
    )?;
    six_through_four(
        &rt,
        alloc,
        running(alloc, Mode::RoundRobin, true, 4, alone)?,
    )
}

#[test]
fn a_scheduler_schedules_schedulers(rt: HostRuntime) -> Result<(), Fail> {
    let alloc = rt.alloc();
    let first = pair(alloc, 4, Limits::Never, Limits::Never, Limits::Never)?;
    let first = running(alloc, Mode::RoundRobin, false, 1, first)?;
    let second = pair(alloc, 4, Limits::Never, Limits::Never, Limits::Never)?;
    let second = running(alloc, Mode::PacketSize, true, 2, second)?;
    let both = running(alloc, Mode::FailOver, true, 8, two(alloc, first, second)?)?;
    seven_through_both(&rt, alloc, both)
}
