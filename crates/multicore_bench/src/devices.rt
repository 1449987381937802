//! An owner and its workers are opened.
ghost use Rattle.std.specs.Prelude.{◌≡◌, ◌<◌, ◌≤◌, [], length, IfOk};
ghost use Rattle.std.specs.Arc.{arc_value};
ghost use Rattle.sched_multicore.specs.Carry.{IsFree, IsHandOf};
ghost use Rattle.multicore_bench.specs.Hands.{AreNew};

use crate::owner::{Flow, Owner, SLOTS};
use crypto_model::OutOfMemory;
use dev_core::{Device, Driver, Kind, LimitList, Limits, StallDriver};
use flight_table::{Hand, Note};
use sched_multicore::Worker;
use std::alloc::Global;
use std::sync::Arc;
use sym_engine::PlainDriver;
use sym_session::SessionTable;

pub type Stalling = StallDriver<PlainDriver<Note>>;

/// Whether the workers' devices refuse.
#[derive(Clone, Copy)]
pub enum Pattern {
    Open,
    Stalling,
}

// The limits of a worker's enqueues: at most 0 to 4 a call, by turns.
fn enqueues(alloc: Global, index: usize) -> Result<Limits, OutOfMemory>
    requires { index < 8 }
{
    let mut limits = Vec::new(alloc);
    for i in 0..65_536usize {
        limits.push(((i * 7 + i / 5 + index) % 5) as u32)?;
    }
    Ok(Limits::Listed(LimitList::copy(alloc, &limits)?))
}

// A worker's device, which holds nothing.
fn device(
    alloc: Global,
    index: usize,
    pattern: Pattern,
    sessions: Arc<SessionTable>,
) -> Result<Stalling, OutOfMemory>
    requires { index < 8 }
    ensures held { IfOk result (λ d. ⟦<Stalling as Driver<Note>>⟧.held d ≡ []) }
    ensures sessions { IfOk result (λ d. ⟦<Stalling as Driver<Note>>⟧.sessions d ≡ arc_value sessions) }
{
    let (enqueue, dequeue) = match pattern {
        Pattern::Open => (Limits::Never, Limits::Never),
        Pattern::Stalling => (enqueues(alloc, index)?, Limits::Always(index as u32 + 1)),
    };
    let mut device = StallDriver::new(PlainDriver::new(alloc)?, enqueue, dequeue);
    match device.set_up(alloc, Kind::Plain, sessions, 128) {
        Ok(()) => Ok(device),
        Err(_) => Err(OutOfMemory),
    }
}

// A worker with one hand.
fn worker(
    alloc: Global,
    index: usize,
    dev: Stalling,
    hand: Hand,
) -> Result<Worker<Stalling>, OutOfMemory>
    requires dev { ⟦<Stalling as Driver<Note>>⟧.held dev ≡ [] }
    requires hand { IsHandOf index SLOTS (⟦<Stalling as Driver<Note>>⟧.sessions dev) hand }
    requires free { IsFree SLOTS hand }
{
    let hands = vec![in alloc; hand]?;
    match Worker::open(alloc, index, dev, hands, SLOTS) {
        Ok(worker) => Ok(worker),
        Err(_) => Err(OutOfMemory),
    }
}

// A worker for each of these hands.
fn all_workers(
    alloc: Global,
    mut hands: Vec<Hand>,
    pattern: Pattern,
    sessions: &Arc<SessionTable>,
) -> Result<Vec<Worker<Stalling>>, OutOfMemory>
    requires few { length hands.items ≤ 8 }
    requires new { AreNew SLOTS (arc_value sessions.now) hands.items }
{
    let mut workers = Vec::new(alloc);
    for _i in 0..hands.len() {
        let Some(hand) = hands.pop() else {
            break;
        };
        let index = hands.len();
        let dev = device(alloc, index, pattern, Arc::try_clone(sessions)?)?;
        workers.push(worker(alloc, index, dev, hand)?)?;
    }
    Ok(workers)
}

/// An owner with so many workers.
pub fn open(
    alloc: Global,
    workers: usize,
    flow: Flow,
    pattern: Pattern,
) -> Result<(Owner, Vec<Worker<Stalling>>), OutOfMemory>
    requires { (1 ≤ workers) × (workers ≤ 8) }
{
    let sessions = Arc::new(alloc, SessionTable::new(alloc)?)?;
    let (owner, hands) = Owner::open(alloc, workers, flow, Arc::try_clone(&sessions)?)?;
    let workers = all_workers(alloc, hands, pattern, &sessions)?;
    Ok((owner, workers))
}
