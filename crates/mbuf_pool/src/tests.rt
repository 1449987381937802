ghost use Rattle.std.specs.Prelude.{◌≡◌, IfOk};
ghost use Rattle.mbuf_pool.specs.Ticket.{new_ticket};

use crate::{LocalPool, Pool, SegPass, Topped};
use crypto_model::OutOfMemory;
use mbuf_chain::{NoSeg, SegStore, give_seg};
use std::alloc::Global;
use std::sync::Wait;
use std::test::Fail;
use std::thread;
use std::thread::Threads;

#[test]
fn a_pool_makes_fresh_segments_where_none_is_left(rt: HostRuntime) -> Result<(), Fail> {
    let alloc = rt.alloc();
    let (pool, mut pass) = Pool::open(&rt, alloc, 2)?;
    let first = pool.take(&rt, alloc, &mut pass)?;
    let second = pool.take(&rt, alloc, &mut pass)?;
    assert_eq!(rt; pass.fresh(), 0);
    let third = pool.take(&rt, alloc, &mut pass)?;
    assert_eq!(rt; pass.fresh(), 1);
    pool.give(&rt, &mut pass, first);
    let again = pool.take(&rt, alloc, &mut pass)?;
    assert_eq!(rt; pass.fresh(), 1);
    pool.give(&rt, &mut pass, second);
    pool.give(&rt, &mut pass, third);
    pool.give(&rt, &mut pass, again);
    let _first = pool.take(&rt, alloc, &mut pass)?;
    let _second = pool.take(&rt, alloc, &mut pass)?;
    assert_eq!(rt; pass.fresh(), 1);
    let _third = pool.take(&rt, alloc, &mut pass)?;
    assert_eq!(rt; pass.fresh(), 2);
    Ok(())
}

#[test]
fn a_pool_of_one_thread_answers_empty_after_its_last(rt: HostRuntime) -> Result<(), Fail> {
    let mut pool = LocalPool::open(rt.alloc(), 2)?;
    let first = pool.take()?;
    let second = pool.take()?;
    assert_eq!(rt; pool.take().err(), Some(NoSeg::Empty));
    pool.give(first);
    pool.give(second);
    let mut seg = pool.take()?;
    assert_eq!(rt; (seg.off(), seg.len()), (0, 0));
    seg.set(3, 4);
    give_seg(&mut pool, seg);
    let seg = pool.take()?;
    assert_eq!(rt; (seg.off(), seg.len()), (0, 0));
    Ok(())
}

#[test]
fn a_topped_pool_goes_on(rt: HostRuntime) -> Result<(), Fail> {
    let alloc = rt.alloc();
    let mut pool = Topped::new(alloc, LocalPool::open(alloc, 1)?);
    let first = pool.take()?;
    let second = pool.take()?;
    assert_eq!(rt;
        (first.off(), first.len(), second.off(), second.len()),
        (0, 0, 0, 0)
    );
    pool.give(first);
    pool.give(second);
    Ok(())
}

#[test]
fn the_largest_pools_open(rt: HostRuntime) -> Result<(), Fail> {
    let alloc = rt.alloc();
    let mut local = LocalPool::open(alloc, 16_384)?;
    assert!(rt; local.take().is_ok());
    drop(local);
    let (pool, mut pass) = Pool::open(&rt, alloc, 16_384)?;
    for _ in 0..16_384 {
        drop(pool.take(&rt, alloc, &mut pass)?);
    }
    assert_eq!(rt; pass.fresh(), 0);
    Ok(())
}

fn sent<T: Send>(value: T) -> T {
    value
}

fn shared<T: Sync>(value: &T) -> &T {
    value
}

#[test]
fn pools_and_passes_can_be_sent_and_a_pool_shared(rt: HostRuntime) -> Result<(), Fail> {
    let alloc = rt.alloc();
    assert!(rt; sent(LocalPool::open(alloc, 1)?).take().is_ok());
    assert!(rt;
        sent(Topped::new(alloc, LocalPool::open(alloc, 1)?))
            .take()
            .is_ok()
    );
    let (pool, pass) = Pool::open(&rt, alloc, 1)?;
    let _pool = sent(shared(&pool));
    assert_eq!(rt; sent(pass).fresh(), 0);
    drop(sent(pool));
    Ok(())
}

// Takes a segment and gives it back with data, many times.
fn borrow_often<R: Wait>(
    rt: &R,
    alloc: Global,
    pool: &Pool,
    mut pass: SegPass,
) -> Result<SegPass, OutOfMemory>
    requires { pass.pool ≡ pool.now }
{
    for _ in 0..10_000 {
        let mut seg = pool.take(rt, alloc, &mut pass)?;
        seg.set(7, 9);
        pool.give(rt, &mut pass, seg);
    }
    Ok(pass)
}

// As each thread has at most one of the two segments out, none finds the queue empty.
fn borrow_in_two_threads<R: Threads + Wait + Sync>(
    rt: &R,
    alloc: Global,
) -> Result<(u64, u64), OutOfMemory> {
    let (owned, mut mine) = Pool::open(rt, alloc, 2)?;
    let pool = &owned;
    let theirs = mine.split(pool);
    let (mine, theirs) = thread::join(
        rt,
        move ||
            requires { mine.pool ≡ pool.now }
        { borrow_often(rt, alloc, pool, mine) },
        move ||
            requires { theirs.pool ≡ pool.now }
        { borrow_often(rt, alloc, pool, theirs) },
    );
    Ok((mine?.fresh(), theirs?.fresh()))
}

#[test]
fn two_threads_share_a_pool(rt: HostRuntime) -> Result<(), Fail> {
    assert_eq!(rt; borrow_in_two_threads(&rt, rt.alloc())?, (0, 0));
    Ok(())
}
