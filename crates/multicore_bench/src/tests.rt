//! An owner and its workers in threads.
use crate::crew::{Ran, run};
use crate::devices::{Pattern, open};
use crate::owner::{BURST, Flow};
use sched_multicore::{Gate, OpenGate};
use std::sync::atomic::{AtomicU64, Ordering};
use std::test::Fail;

// Operations that only workers are to do: the owner waits for them long.
fn flow(operations: u32) -> Flow {
    Flow {
        operations,
        owners: 1,
        burst: BURST,
        patience: 1 << 24,
        ordering: true,
    }
}

#[test]
fn what_devices_refuse_comes_back_once_in_order(rt: HostRuntime) -> Result<(), Fail> {
    let (owner, workers) = open(rt.alloc(), 4, flow(2_000), Pattern::Stalling)?;
    let ran = run(&rt, owner, workers, &OpenGate)?;
    assert!(rt; ran.is_right() && ran.flow.operations == 2_000);
    Ok(())
}

#[test]
fn what_devices_refuse_comes_back_once_in_any_order(rt: HostRuntime) -> Result<(), Fail> {
    let flow = Flow {
        ordering: false,
        ..flow(2_000)
    };
    let (owner, workers) = open(rt.alloc(), 4, flow, Pattern::Stalling)?;
    let ran = run(&rt, owner, workers, &OpenGate)?;
    assert!(rt; ran.is_right() && ran.flow.operations == 2_000);
    Ok(())
}

#[test]
fn workers_stay_until_each_owner_has_ended(rt: HostRuntime) -> Result<(), Fail> {
    let flow = Flow {
        owners: 3,
        ..flow(3_000)
    };
    let (owner, workers) = open(rt.alloc(), 2, flow, Pattern::Open)?;
    let ran = run(&rt, owner, workers, &OpenGate)?;
    assert!(rt; ran.is_right() && ran.flow.operations == 3_000);
    assert!(rt; ran.early == 0 && ran.helped == 0);
    Ok(())
}

// Holds each even number until the next one has passed, and notes by bits what each of two workers passed.
#[derive(Drop)]
struct InPairs {
    first: AtomicU64,
    second: AtomicU64,
    failures: AtomicU64,
}

impl InPairs {
    fn has_passed(&self, bit: u64) -> bool {
        let first = self.first.load(Ordering::SeqCst);
        let second = self.second.load(Ordering::SeqCst);
        (first | second) & bit != 0
    }

    // Behind a wait that was for nothing it holds no number any more.
    fn wait_for(&self, bit: u64) {
        if self.failures.load(Ordering::SeqCst) > 0 {
            return;
        }
        for _i in 0..1u64 << 28 {
            if self.has_passed(bit) {
                return;
            }
        }
        self.failures.fetch_add(1, Ordering::SeqCst);
    }
}

impl Gate for InPairs {
    fn pass(&self, worker: usize, number: u64) {
        let bit = 1u64 << (number % 64);
        if number % 2 == 0 {
            self.wait_for(bit << 1);
        }
        let passed = if worker == 0 {
            &self.first
        } else {
            &self.second
        };
        passed.fetch_add(bit, Ordering::SeqCst);
    }
}

#[test]
fn each_worker_does_every_other_operation(rt: HostRuntime) -> Result<(), Fail> {
    let flow = Flow {
        burst: 1,
        ..flow(64)
    };
    let gate = InPairs {
        first: AtomicU64::new(0),
        second: AtomicU64::new(0),
        failures: AtomicU64::new(0),
    };
    let (owner, workers) = open(rt.alloc(), 2, flow, Pattern::Open)?;
    let ran = run(&rt, owner, workers, &gate)?;
    assert!(rt; ran.is_right() && ran.flow.operations == 64 && ran.helped == 0);
    assert!(rt; gate.failures.load(Ordering::SeqCst) == 0);
    assert!(rt; gate.first.load(Ordering::SeqCst) == 0x5555_5555_5555_5555);
    assert!(rt; gate.second.load(Ordering::SeqCst) == 0xaaaa_aaaa_aaaa_aaaa);
    Ok(())
}
