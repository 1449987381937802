use crate::{LimitList, Limits, LogDriver, StallDriver, Stats};
use std::test::Fail;

#[test]
fn short_calls_are_counted(rt: HostRuntime) {
    let mut stats = Stats::new();
    for (offered, n) in [(6, 4), (2, 2), (0, 0)] {
        stats.count_enqueue(offered, n);
        stats.count_dequeue(n, n);
    }
    stats.count_dequeue(5, 1);
    let expected = Stats {
        enqueued: 6,
        dequeued: 7,
        enqueue_short: 1,
        dequeue_short: 1,
    };
    assert_eq!(rt; stats, expected);
}

#[test]
fn limits_are_copied(rt: HostRuntime) -> Result<(), Fail> {
    let list = LimitList::copy(rt.alloc(), &[3, 0])?;
    let device = StallDriver::new('d', Limits::Always(2), Limits::Listed(list));
    assert_eq!(rt; (*device.inner(), device.into_inner()), ('d', 'd'));
    Ok(())
}

#[test]
fn a_log_begins_empty(rt: HostRuntime) -> Result<(), Fail> {
    let device = LogDriver::new(rt.alloc(), 'd', 3)?;
    assert!(rt; device.log().is_empty());
    assert_eq!(rt; (*device.inner(), device.into_inner()), ('d', 'd'));
    Ok(())
}

#[test]
fn long_lists_and_logs_find_memory(rt: HostRuntime) -> Result<(), Fail> {
    let alloc = rt.alloc();
    let list = LimitList::copy(alloc, &[1; 4096])?;
    let device = StallDriver::new('d', Limits::Listed(list), Limits::Never);
    let device = LogDriver::new(alloc, device, 100_000)?;
    assert!(rt; device.log().is_empty());
    assert_eq!(rt; *device.inner().inner(), 'd');
    Ok(())
}

fn sent<T: Send>(value: T) -> T {
    value
}

#[test]
fn devices_over_others_can_be_sent(rt: HostRuntime) -> Result<(), Fail> {
    let device = StallDriver::new('d', Limits::Never, Limits::Always(1));
    let device = LogDriver::new(rt.alloc(), sent(device), 1)?;
    assert_eq!(rt; *sent(device).inner().inner(), 'd');
    Ok(())
}
