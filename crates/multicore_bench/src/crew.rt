//! The owner of a queue pair and its workers, each in a thread.
ghost use Rattle.std.specs.Prelude.{◌≡◌, length};

use crate::devices::Stalling;
use crate::owner::{Flow, Owner};
use crate::tally::Tally;
use crypto_model::OutOfMemory;
use dev_core::Driver;
use sched_multicore::{Gate, Worker};
use std::sync::Wait;
use std::sync::atomic::{AtomicUsize, Ordering};
use std::thread;
use std::thread::Threads;

/// What the threads tell each other: how many owners have ended, and how many workers have left.
#[derive(Drop)]
struct Signs {
    ended: AtomicUsize,
    left: AtomicUsize,
}

/// What a run did.
#[derive(Drop)]
pub struct Ran {
    pub flow: Flow,
    pub tally: Tally,
    /// How many operations the owner answered, and how many the devices took.
    pub helped: u64,
    pub done: u64,
    /// How many workers had left before the last owner ended.
    pub early: usize,
    ghost whole: { length tally.seen.items ≡ flow.operations },
}

impl Ran {
    ghost use Rattle.multicore_bench.specs.Right.{is_right};

    /// Whether each operation came back once, with its answer and, with ordering on, in its turn; owner and devices did each
    /// once; and each worker stayed.
    pub fn is_right(&self) -> bool
        ensures { result ≡ is_right self.now }
    {
        let tally = &self.tally;
        tally.lost() == 0
            && tally.doubled == 0
            && tally.wrong == 0
            && (tally.out_of_order == 0 || !self.flow.ordering)
            && self.helped.saturating_add(self.done) == u64::from(self.flow.operations)
            && self.early == 0
    }
}

// Lets the others run for a while: a worker that doesn't wait for the next owner leaves.
fn pause() {
    for _i in 0..1_000u32 {
        thread::yield_now();
    }
}

// Does what the owners do, one after another, and answers how many workers had left before the last one ended.
fn own<R: Wait>(rt: &R, owner: &mut Owner, signs: &Signs) -> usize {
    let flow = owner.flow;
    let share = u64::from(flow.operations) / u64::from(flow.owners.max(1)) + 1;
    let mut end = 0u64;
    let mut early = 0;
    for _n in 0..flow.owners {
        end = end.saturating_add(share);
        pause();
        owner.serve(rt, end);
        early = signs.left.load(Ordering::SeqCst);
        signs.ended.fetch_add(1, Ordering::SeqCst);
    }
    early
}

// Does what a worker does, until the owners have ended, and answers how many operations its device took.
fn work<R: Wait, G: Gate>(
    rt: &R,
    mut worker: Worker<Stalling>,
    gate: &G,
    signs: &Signs,
    owners: usize,
) -> u64 {
    worker.run_until_closed(rt, gate, &signs.ended, owners);
    signs.left.fetch_add(1, Ordering::SeqCst);
    let (dev, _hands) = worker.release();
    dev.stats().enqueued
}

/// Sends the operations of an owner through its queue pair, with each worker in a thread.
pub fn run<R: Threads + Wait + Sync, G: Gate + Sync>(
    rt: &R,
    mut owner: Owner,
    workers: Vec<Worker<Stalling>>,
    gate: &G,
) -> Result<Ran, OutOfMemory> {
    let signs = Signs {
        ended: AtomicUsize::new(0),
        left: AtomicUsize::new(0),
    };
    let shared = &signs;
    let owners = owner.flow.owners as usize;
    let ((owner, early), done) = thread::join(
        rt,
        move || {
            let early = own(rt, &mut owner, shared);
            (owner, early)
        },
        move || {
            thread::map_vec(
                rt,
                workers,
                &|worker| { work(rt, worker, gate, shared, owners) },
            )
        },
    );
    let Owner {
        qp,
        flow,
        tally,
        ..
    } = owner;
    Ok(Ran {
        flow,
        tally,
        helped: qp.helped(),
        done: done?.iter().fold(0, |sum, n| sum.saturating_add(*n)),
        early,
    })
}
