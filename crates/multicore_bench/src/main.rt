//! Sends null operations, whose session no table has, through a queue pair of multi-core mode, with its owner and its
//! workers in threads. The words say how many workers and how many operations; behind them `ordered` says that the
//! queue pair gives operations back in order, and `stalling` that each worker's device refuses by a pattern. Without
//! words it is 2 workers and 2,000 operations.
//!
//! What came back is printed on standard output, the same whatever the threads' schedule. The nanoseconds are printed on
//! standard error, with how many operations the owner answered itself. The status isn't 0 where an operation was lost, came
//! back twice, without its answer or out of order, or where owner and devices together didn't do each once.
#![tactic(auto)]

mod crew;
mod devices;
mod owner;
mod tally;
#[cfg(test)]
mod tests;

use crate::crew::{Ran, run};
use crate::devices::{Pattern, open};
use crate::owner::{BURST, Flow};
use anyhow::Result;
use sched_multicore::OpenGate;
use std::env;
use std::time::Instant;

fn flow(operations: u32, ordering: bool) -> Flow {
    Flow {
        operations,
        owners: 1,
        burst: BURST,
        patience: 1 << 20,
        ordering,
    }
}

fn report<R: Print>(rt: &R, ran: &Ran) -> Result<()> {
    let tally = &ran.tally;
    print!(rt; "operations={} lost={}", ran.flow.operations, tally.lost())?;
    print!(rt; " doubled={} wrong={}", tally.doubled, tally.wrong)?;
    if ran.flow.ordering {
        print!(rt; " out_of_order={}", tally.out_of_order)?;
    }
    println!(rt)?;
    if !ran.is_right() {
        anyhow::bail!("not each operation came back once, as it should");
    }
    Ok(())
}

fn main(rt: HostRuntime) -> Result<()> {
    let alloc = rt.alloc();
    let mut words = env::args(&rt)?.skip(1);
    let workers: usize = match words.next() {
        Some(word) => word.as_str().parse()?,
        None => 2,
    };
    let operations: u32 = match words.next() {
        Some(word) => word.as_str().parse()?,
        None => 2_000,
    };
    let mut ordering = false;
    let mut pattern = Pattern::Open;
    for word in words {
        match word.as_str() {
            "ordered" => ordering = true,
            "stalling" => pattern = Pattern::Stalling,
            _ => anyhow::bail!("no such word"),
        }
    }
    let (owner, workers) = open(
        alloc,
        workers.max(1).min(8),
        flow(operations, ordering),
        pattern,
    )?;
    let start = Instant::now(&rt)?;
    let ran = run(&rt, owner, workers, &OpenGate)?;
    let nanos = start.elapsed(&rt)?.as_nanos().max(1);
    report(&rt, &ran)?;
    eprintln!(rt; "nanoseconds={nanos} helped={}", ran.helped)?;
    Ok(())
}
