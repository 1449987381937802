//! The stopped scheduler.
ghost use Rattle.std.specs.Prelude.{◌≡◌, ◌↔◌, ◌+◌, ◌<◌, ◌≤◌, IsTrue, length, vec_len, IsErr, IsErrOf, IfOk, OnOk, OnErr};
ghost use Rattle.std.specs.Arc.{arc_value};
ghost use Rattle.sched_core.specs.Mode.{most_workers};
ghost use Rattle.sched_core.specs.Stopped.{is_threshold};
ghost use Rattle.sched_core.specs.declared.scheduler.AttachRefused.TheVariants.{TooManyWorkers, NoDevice, SessionsDiffer};

use crate::Mode;
use dev_core::Driver;
use std::marker::Model;
use std::sync::Arc;
use sym_session::{SessionTable, same};
use thiserror::Error;

const FIRST_THRESHOLD: u32 = 128;

/// A threshold is at most so many bytes, which is as long as a packet of a capture may be.
pub const MAX_THRESHOLD: u32 = 262_144;

/// Why no device was attached.
#[derive(Clone, Copy, Debug, PartialEq, Eq, Error)]
pub enum AttachRefused {
    #[error("the mode has no more workers")]
    TooManyWorkers,
    #[error("all devices are attached")]
    NoDevice,
    #[error("the device has other sessions")]
    SessionsDiffer,
}

/// The threshold isn't a power of two from 1 to 262,144.
#[derive(Clone, Copy, Debug, PartialEq, Eq, Error)]
#[error("the threshold isn't a power of two from 1 to 262,144")]
pub struct BadThreshold;

/// Whether a threshold is a power of two from 1 to 262,144.
pub(crate) fn allowed_threshold(n: u32) -> bool
    ensures { result ≡ is_threshold n }
{
    n.is_power_of_two() && n <= MAX_THRESHOLD
}

/// What a stopped scheduler is made of. The first `workers` devices are attached.
#[derive(Drop)]
pub struct Parts<D> {
    pub mode: Mode,
    pub ordering: bool,
    pub threshold: u32,
    pub sessions: Arc<SessionTable>,
    pub devs: Vec<D>,
    pub workers: usize,
}

/// A scheduler that is stopped. It owns devices, the first of which are attached as its workers.
#[derive(Drop)]
pub struct Scheduler<D> {
    parts: Parts<D>,
}

impl<D> Model for Scheduler<D> {
    ghost use Rattle.std.specs.Prelude.{◌≤◌, vec_len};
    ghost use Rattle.sched_core.specs.Mode.{most_workers};
    ghost use Rattle.sched_core.specs.Stopped.{Stopped, made_of};

    ghost Value = { Stopped D };

    ghost view = { λ s. made_of s.parts };

    ghost invariant = { λ s. (s.parts.workers ≤ vec_len s.parts.devs) × (s.parts.workers ≤ most_workers s.parts.mode) };
}

impl<D> Scheduler<D> {
    ghost use Rattle.sched_core.specs.Stopped.{AreAlike, HasNext, NextDiffers, made_of};

    /// None of the devices is attached, and the threshold is 128.
    pub fn new(
        mode: Mode,
        ordering: bool,
        sessions: Arc<SessionTable>,
        devs: Vec<D>,
    ) -> Scheduler<D>
        ensures { result ≡ record { mode = mode; ordering = ordering; threshold = 128; sessions = arc_value sessions; devs = devs.items; workers = 0 } }
    {
        Scheduler {
            parts: Parts {
                mode,
                ordering,
                threshold: FIRST_THRESHOLD,
                sessions,
                devs,
                workers: 0,
            },
        }
    }

    /// Attaches the next device, and answers its place. `C` is the cargo of the operations that are to be
    /// scheduled.
    pub fn attach<C>(&mut self) -> Result<usize, AttachRefused>
    where
        D: Driver<C>,
        ensures too_many { IsErrOf result TooManyWorkers ↔ (self.old.workers ≡ most_workers self.old.mode) }
        ensures no_device { IsErrOf result NoDevice ↔ (self.old.workers < most_workers self.old.mode) × (self.old.workers ≡ length self.old.devs) }
        ensures differ { IsErrOf result SessionsDiffer ↔ HasNext self.old × NextDiffers D.sessions self.old }
        ensures refused { OnErr result (self.new ≡ self.old) }
        ensures place { IfOk result (λ place. (place ≡ self.old.workers) × (place < length self.old.devs)) }
        ensures attached { OnOk result (self.new ≡ record self.old { workers = self.old.workers + 1 }) }
        ensures alike { OnOk result (AreAlike D.sessions self.old → AreAlike D.sessions self.new) }
    {
        let place = self.parts.workers;
        if place == self.parts.mode.most_workers() {
            return Err(AttachRefused::TooManyWorkers);
        }
        if place == self.parts.devs.len() {
            return Err(AttachRefused::NoDevice);
        }
        if !same(self.parts.devs[place].sessions(), &self.parts.sessions) {
            return Err(AttachRefused::SessionsDiffer);
        }
        self.parts.workers = place + 1;
        Ok(place)
    }

    /// Says from which data length on an operation is long. Only the mode by packet size looks at it.
    pub fn set_threshold(&mut self, n: u32) -> Result<(), BadThreshold>
        ensures refusal { IsErr result ↔ ¬ (IsTrue (is_threshold n)) }
        ensures refused { OnErr result (self.new ≡ self.old) }
        ensures set { OnOk result (self.new ≡ record self.old { threshold = n }) }
    {
        if !allowed_threshold(n) {
            return Err(BadThreshold);
        }
        self.parts.threshold = n;
        Ok(())
    }

    /// Hands all devices back, in their order.
    pub fn release(self) -> Vec<D>
        ensures { result.items ≡ self.devs }
    {
        self.into_parts().devs
    }

    pub fn into_parts(self) -> Parts<D>
        ensures parts { made_of result ≡ self }
        ensures attached { result.workers ≤ vec_len result.devs }
        ensures most { result.workers ≤ most_workers result.mode }
    {
        self.parts
    }

    pub fn from_parts(parts: Parts<D>) -> Scheduler<D>
        requires attached { parts.workers ≤ vec_len parts.devs }
        requires most { parts.workers ≤ most_workers parts.mode }
        ensures { result ≡ made_of parts }
    {
        Scheduler { parts }
    }
}
