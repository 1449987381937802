//! Starting a scheduler.
ghost use Rattle.std.specs.Prelude.{◌≡◌, ◌≢◌, ◌<◌, ◌≤◌, [], is_some, if◌then◌else◌, IfOk, OnErr, Err};
ghost use Rattle.sched_core.specs.declared.mode.Mode.TheVariants.{MultiCore};
ghost use Rattle.sched_core.specs.Mode.{least_workers};
ghost use Rattle.sched_core.specs.Stopped.{AreAlike};
ghost use Rattle.sched_modes.specs.declared.launch.StartRefused.TheVariants as refused;
ghost use Rattle.sched_modes.specs.Running.{AreIdle, IsStarted};
ghost use Rattle.sched_modes.specs.Workers.{IsNewRing};

use crate::{FailOver, PacketSize, Pool, RoundRobin, Running};
use crypto_model::OutOfMemory;
use crypto_op::{MAX_OPS, OpBurst};
use dev_core::Driver;
use sched_core::{Mode, OrderRing, Scheduler};
use std::alloc::Global;

/// Why a scheduler was not started, with the scheduler as it was.
#[derive(Drop)]
pub enum StartRefused<D> {
    /// The mode needs one worker, or two by packet size and for fail-over.
    TooFewWorkers(Scheduler<D>),
    OutOfMemory(Scheduler<D>),
}

// A ring of this capacity, if there is to be one, and room for what comes back to it.
fn reserve<C: Drop>(
    alloc: Global,
    ordering: bool,
    cap: usize,
) -> Result<(OpBurst<C>, Option<OrderRing<C>>), OutOfMemory>
    requires { (1 ≤ cap) × (cap ≤ MAX_OPS) }
    ensures scratch { IfOk result (λ p. p.0 ≡ record { cap = if ordering then cap else 0; ops = [] }) }
    ensures ring { IfOk result (λ p. IsNewRing cap p.1 × (is_some p.1 ≡ ordering)) }
{
    if ordering {
        let scratch = OpBurst::new(alloc, cap)?;
        Ok((scratch, Some(OrderRing::new(alloc, cap)?)))
    } else {
        Ok((OpBurst::new(alloc, 0)?, None))
    }
}

/// Starts a scheduler, with ordering on by a ring of this capacity. Its workers hold nothing, which whoever
/// attached them sees to, and have its sessions, which `attach` has tested.
pub fn start<C: Drop, D: Driver<C>>(
    alloc: Global,
    s: Scheduler<D>,
    ring: usize,
) -> Result<Running<C, D>, StartRefused<D>>
    requires mode { s.mode ≢ MultiCore }
    requires ring { (1 ≤ ring) × (ring ≤ MAX_OPS) }
    requires idle { AreIdle D.Driver s.workers s.devs }
    requires alike { AreAlike D.sessions s }
    ensures too_few { s.workers < least_workers s.mode → result ≡ Err (refused.TooFewWorkers s) }
    ensures no_memory { least_workers s.mode ≤ s.workers → OnErr result (result ≡ Err (refused.OutOfMemory s)) }
    ensures started { IfOk result (λ r. IsStarted s ring r) }
{
    let parts = s.into_parts();
    if parts.workers < parts.mode.least_workers() {
        return Err(StartRefused::TooFewWorkers(Scheduler::from_parts(parts)));
    }
    let Ok((scratch, order)) = reserve(alloc, parts.ordering, ring) else {
        return Err(StartRefused::OutOfMemory(Scheduler::from_parts(parts)));
    };
    let mode = parts.mode;
    let pool = Pool::new(parts, scratch, order);
    match mode {
        Mode::RoundRobin => Ok(Running::Round(RoundRobin::new(pool))),
        Mode::PacketSize => Ok(Running::Size(PacketSize::new(pool))),
        Mode::FailOver => Ok(Running::Fail(FailOver::new(pool))),
        Mode::MultiCore => unreachable!(),
    }
}
