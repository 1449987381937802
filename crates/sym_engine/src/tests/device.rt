ghost use Rattle.std.specs.Prelude.{IfOk};
ghost use Rattle.std.specs.List.{All};
ghost use Rattle.crypto_op.specs.Op.{IsFresh};

use super::making::{
    COUNTER, KEY, TEXT, UNDER_CTR, assert_packet, of_cipher, one_session, operation, packet,
};
use crate::PlainDriver;
use crypto_model::Status;
use crypto_op::{Op, OpBurst};
use dev_core::{Device, Driver, Kind, SetUpRefused, Stats};
use std::alloc::Global;
use std::process::Abort;
use std::sync::Arc;
use std::test::Fail;

// The block under a session, cut behind so many bytes.
fn under(alloc: Global, session: u32, first: usize, second: usize) -> Result<Op<u32>, Fail>
    ensures { IfOk result IsFresh }
{
    let chain = packet(alloc, &TEXT.to_be_bytes(), first, second)?;
    operation(alloc, of_cipher(session, COUNTER, 0, 16), chain)
}

// Three operations, of the sessions 0, 1 and 2.
fn three(alloc: Global) -> Result<OpBurst<u32>, Fail>
    ensures { IfOk result (λ b. All IsFresh b.ops) }
{
    let mut burst = OpBurst::new(alloc, 3)?;
    burst.push(under(alloc, 0, 16, 0)?);
    burst.push(under(alloc, 1, 4, 4)?);
    burst.push(under(alloc, 2, 0, 0)?);
    Ok(burst)
}

// Taken and given, and the short calls of both kinds.
fn counts(stats: Stats) -> [u64; 4] {
    [
        stats.enqueued,
        stats.dequeued,
        stats.enqueue_short,
        stats.dequeue_short,
    ]
}

// The operation is answered, as one of this session, with this packet.
fn assert_answer(rt: &impl Abort, op: &Op<u32>, session: u32, status: Status, block: u128) {
    assert_eq!(rt; (*op.cargo(), op.status()), (session, status));
    assert_packet(rt, op.chain(), &block.to_be_bytes(), "answer");
}

#[test]
fn a_plain_driver_accepts_nothing_before_it_is_set_up(rt: HostRuntime) -> Result<(), Fail> {
    let alloc = rt.alloc();
    let sessions = Arc::new(alloc, one_session(alloc, KEY)?)?;
    let mut driver = PlainDriver::new(alloc)?;
    let mut burst = three(alloc)?;
    assert_eq!(rt;
        (
            driver.depth(),
            driver.enqueue_burst(&mut burst, 3),
            burst.len()
        ),
        (0, 0, 3)
    );
    assert_eq!(rt; counts(driver.stats()), [0, 0, 1, 0]);
    for (depth, answer) in [
        (0, Err(SetUpRefused::BadDepth)),
        (4097, Err(SetUpRefused::BadDepth)),
        (4096, Ok(())),
        (2, Ok(())),
    ] {
        assert_eq!(rt;
            driver.set_up(alloc, Kind::Plain, sessions.clone()?, depth),
            answer,
            "{depth}"
        );
    }
    assert_eq!(rt; (driver.depth(), counts(driver.stats())), (2, [0; 4]));
    Ok(())
}

#[test]
fn a_plain_driver_takes_what_its_depth_allows_and_answers_in_order(
    rt: HostRuntime,
) -> Result<(), Fail> {
    let alloc = rt.alloc();
    let sessions = Arc::new(alloc, one_session(alloc, KEY)?)?;
    let mut driver = PlainDriver::new(alloc)?;
    driver.set_up(alloc, Kind::Plain, sessions.clone()?, 2)?;
    let mut burst = three(alloc)?;
    assert_eq!(rt;
        (driver.enqueue_burst(&mut burst, 3), driver.held()),
        (2, 2)
    );
    assert_eq!(rt; (burst.len(), *burst.pop().ok_or("none")?.cargo()), (1, 2));
    let busy = driver.set_up(alloc, Kind::Plain, sessions, 2);
    assert_eq!(rt; busy, Err(SetUpRefused::Busy));

    let mut out = OpBurst::new(alloc, 3)?;
    assert_eq!(rt; (driver.dequeue_burst(&mut out, 3), driver.held()), (2, 0));
    assert_answer(
        &rt,
        &out.pop().ok_or("none")?,
        0,
        Status::Success,
        UNDER_CTR,
    );
    assert_answer(
        &rt,
        &out.pop().ok_or("none")?,
        1,
        Status::InvalidSession,
        TEXT,
    );
    assert_eq!(rt; counts(driver.stats()), [2, 2, 1, 1]);
    Ok(())
}

fn sent<T: Send>(value: T) -> T {
    value
}

#[test]
fn a_plain_driver_can_be_sent(rt: HostRuntime) -> Result<(), Fail> {
    let driver: PlainDriver<u8> = sent(PlainDriver::new(rt.alloc())?);
    assert_eq!(rt; driver.depth(), 0);
    Ok(())
}
